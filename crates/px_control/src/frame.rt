//! A frame of a running call.
ghost use Rattle.std.specs.Prelude.{◌≡◌, ◌<◌, length, slice_set};
ghost use Rattle.px_blocks.specs.Machine.{just_written, unwritten};
ghost use Rattle.px_blocks.specs.Message.{settled_frame};

use crate::slot::Slots;
use px_value::Value;
use std::marker::Model;

/// A frame, seen as that of a machine.
#[derive(Drop)]
pub struct Frame {
    /// By number from 1; 0 is the lowest frame, whose one slot gets the reply.
    method: u16,
    /// The block that ends in its call; 0 for the lowest frame and an entry's.
    back: u32,
    slots: Slots,
}

impl Model for Frame {
    ghost use Rattle.px_blocks.specs.Machine.{Frame as MachineFrame};

    ghost Value = { MachineFrame };

    ghost view = { λ f. record { method = f.method; back = f.back; slots = f.slots } };
}

impl Frame {
    pub fn new(method: u16, back: u32, slots: Slots) -> Frame
        ensures { result ≡ record { method = method; back = back; slots = slots } }
    {
        Frame {
            method,
            back,
            slots,
        }
    }

    pub fn method(&self) -> u16
        ensures { result ≡ self.now.method }
    {
        self.method
    }

    pub fn back(&self) -> u32
        ensures { result ≡ self.now.back }
    {
        self.back
    }

    pub fn slots(&self) -> &Slots
        ensures { result.now ≡ self.now.slots }
    {
        &self.slots
    }

    /// Writes a slot, if it is there.
    pub fn fill(&mut self, at: usize, value: Value)
        ensures { self.new ≡ record self.old { slots = slice_set self.old.slots at (just_written value) } }
    {
        if at < self.slots.len() {
            self.slots.fill(at, value);
        }
    }

    /// A slot gets a value that the other end wrote.
    pub fn place(&mut self, at: usize, value: Value)
        ensures { self.new ≡ record self.old { slots = slice_set self.old.slots at (unwritten value) } }
    {
        if at < self.slots.len() {
            self.slots.place(at, value);
        }
    }

    /// Forgets which slots were written.
    pub fn settle(&mut self)
        ensures { self.new ≡ settled_frame self.old }
    {
        self.slots.settle();
    }
}
