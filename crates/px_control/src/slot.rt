//! The slots of a frame (JLS 15.12.4.5).
ghost use Rattle.std.specs.Prelude.{◌≡◌, ◌<◌, ◌∷◌, ◌++◌, [], map, length, slice_set, OnOk, OnErr};
ghost use Rattle.px_blocks.specs.Machine.{just_written, unwritten};
ghost use Rattle.px_blocks.specs.Message.{settled};
ghost use Rattle.px_control.specs.Slots.{slot_of};

use px_value::Value;
use std::alloc::{AllocError, Global};
use std::marker::Model;

/// A parameter, a local or a temporary.
#[derive(Drop)]
pub struct Slot {
    pub value: Value,
    /// Whether it was written since control came.
    pub written: bool,
}

/// The slots of a frame, seen as their list.
#[derive(Drop)]
pub struct Slots {
    items: Vec<Slot>,
}

impl Model for Slots {
    ghost use Rattle.std.specs.Prelude.{List, map};
    ghost use Rattle.px_blocks.specs.Machine.{Slot as MachineSlot};
    ghost use Rattle.px_control.specs.Slots.{slot_of};

    ghost Value = { List MachineSlot };

    ghost view = { λ s. map slot_of s.items.items };
}

impl Slots {
    pub fn new(alloc: Global) -> Slots
        ensures { result ≡ [] }
    {
        Slots {
            items: Vec::new(alloc),
        }
    }

    pub fn as_slice(&self) -> &[Slot]
        ensures { map slot_of result.now ≡ self.now }
    {
        self.items.as_slice()
    }

    pub fn len(&self) -> usize
        ensures { result ≡ length self.now }
    {
        self.items.len()
    }

    /// One more slot, as yet unwritten.
    pub fn push_blank(&mut self, value: Value) -> Result<(), AllocError>
        ensures ok { OnOk result (self.new ≡ self.old ++ unwritten value ∷ []) }
        ensures err { OnErr result (self.new ≡ self.old) }
    {
        self.items.push(Slot {
            value,
            written: false,
        })?;
        Ok(())
    }

    /// One more slot, just written.
    pub fn push_written(&mut self, value: Value) -> Result<(), AllocError>
        ensures ok { OnOk result (self.new ≡ self.old ++ just_written value ∷ []) }
        ensures err { OnErr result (self.new ≡ self.old) }
    {
        self.items.push(Slot {
            value,
            written: true,
        })?;
        Ok(())
    }

    /// Writes a slot.
    pub fn fill(&mut self, at: usize, value: Value)
        requires { at < length self.old }
        ensures { self.new ≡ slice_set self.old at (just_written value) }
    {
        self.items[at] = Slot {
            value,
            written: true,
        };
    }

    /// A slot gets a value that the other end wrote.
    pub fn place(&mut self, at: usize, value: Value)
        requires { at < length self.old }
        ensures { self.new ≡ slice_set self.old at (unwritten value) }
    {
        self.items[at] = Slot {
            value,
            written: false,
        };
    }

    /// Forgets which slots were written.
    pub fn settle(&mut self)
        ensures { self.new ≡ map settled self.old }
    {
        for at in 0..self.items.len() {
            self.items[at].written = false;
        }
    }
}
