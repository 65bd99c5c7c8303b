//! Events with room for more.
ghost use Rattle.std.specs.Prelude.{◌≡◌, ◌<◌, ◌≤◌, ◌+◌, ◌++◌, ◌∷◌, [], OnOk, OnErr};

use px_history::Event;
use std::alloc::{AllocError, Global};
use std::marker::Model;

#[derive(Drop)]
pub struct Journal {
    events: Vec<Event>,
    spare: usize,
}

impl Model for Journal {
    ghost use Rattle.std.specs.Prelude.{◌≤◌, ◌+◌, vec_len, vec_capacity};
    ghost use Rattle.px_engine.specs.Events.{Events};

    ghost Value = { Events };

    ghost view = { λ j. record { events = j.events.items; spare = j.spare } };

    ghost invariant = { λ j. vec_len j.events + j.spare ≤ vec_capacity j.events };
}

impl Journal {
    pub fn new(alloc: Global) -> Journal
        ensures events { result.events ≡ [] }
        ensures spare { result.spare ≡ 0 }
    {
        Journal {
            events: Vec::new(alloc),
            spare: 0,
        }
    }

    /// Takes room for one or two more events, or leaves all as it was.
    pub fn make_room(&mut self, more: usize) -> Result<(), AllocError>
        requires { more ≤ 2 }
        ensures ok { OnOk result (self.new.spare ≡ self.old.spare + more) }
        ensures events { self.new.events ≡ self.old.events }
        ensures err { OnErr result (self.new.spare ≡ self.old.spare) }
    {
        if self.spare >= 2_147_483_648 {
            return Err(AllocError);
        }
        let spare = self.spare + more;
        self.events.reserve(spare)?;
        self.spare = spare;
        Ok(())
    }

    /// How many more events take no memory.
    pub fn spare(&self) -> usize
        ensures { result ≡ self.now.spare }
    {
        self.spare
    }

    /// Takes no memory.
    pub fn append(&mut self, event: Event)
        requires { 0 < self.old.spare }
        ensures events { self.new.events ≡ self.old.events ++ event ∷ [] }
        ensures spare { self.new.spare + 1 ≡ self.old.spare }
    {
        self.events.push(event).unwrap();
        self.spare -= 1;
    }

    /// In their order.
    pub fn as_slice(&self) -> &[Event]
        ensures { result.now ≡ self.now.events }
    {
        self.events.as_slice()
    }
}
