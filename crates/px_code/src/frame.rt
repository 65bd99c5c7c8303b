//! The frames of a running call (JLS 15.12.4.5).
ghost use Rattle.std.specs.Prelude.{◌≡◌, ◌<◌, ◌∷◌, ◌++◌, [], true, length, slice_set, OnOk, OnErr};
ghost use Rattle.px_code.specs.Slots.{all_settled};

use px_value::Value;
use std::alloc::{AllocError, Global};
use std::marker::Model;

/// A parameter, a local or a temporary.
#[derive(Drop)]
pub struct Slot {
    pub value: Value,
    /// Whether it was written since control came.
    pub written: bool,
}

/// The slots of a frame, seen as their list.
#[derive(Drop)]
pub struct Slots {
    items: Vec<Slot>,
}

impl Model for Slots {
    ghost use Rattle.std.specs.Prelude.{List};
    ghost use Rattle.px_code.specs.declared.frame.Slot.{Slot as SlotData};

    ghost Value = { List SlotData };

    ghost view = { λ s. s.items.items };
}

impl Slots {
    pub fn new(alloc: Global) -> Slots
        ensures { result ≡ [] }
    {
        Slots {
            items: Vec::new(alloc),
        }
    }

    pub fn as_slice(&self) -> &[Slot]
        ensures { result.now ≡ self.now }
    {
        self.items.as_slice()
    }

    pub fn len(&self) -> usize
        ensures { result ≡ length self.now }
    {
        self.items.len()
    }

    pub fn push(&mut self, slot: Slot) -> Result<(), AllocError>
        ensures ok { OnOk result (self.new ≡ self.old ++ slot ∷ []) }
        ensures err { OnErr result (self.new ≡ self.old) }
    {
        self.items.push(slot)?;
        Ok(())
    }

    /// Writes a slot.
    pub fn fill(&mut self, at: usize, value: Value)
        requires { at < length self.old }
        ensures { self.new ≡ slice_set self.old at (record { value = value; written = true }) }
    {
        self.items[at] = Slot {
            value,
            written: true,
        };
    }

    /// Forgets which slots were written.
    pub fn settle(&mut self)
        ensures { self.new ≡ all_settled self.old }
    {
        for at in 0..self.items.len() {
            self.items[at].written = false;
        }
    }
}

#[derive(Drop)]
pub struct Frame {
    /// By number from 1; 0 is the lowest frame, whose one slot gets the reply.
    pub method: u16,
    /// The block that ends in its call; 0 for the lowest frame and an entry's.
    pub back: u32,
    pub slots: Slots,
}
