//! What goes with control.
ghost use Rattle.std.specs.Prelude.{◌≡◌, map, OnOk, OnErr, IfOk};
ghost use Rattle.px_normal.specs.Words.{operand as operand_of};
ghost use Rattle.px_blocks.specs.Machine.{slots_at as machine_slots_at, top as machine_top, values_of, put_in_slot, also_marked, sent, is_last as is_last_frame};
ghost use Rattle.px_blocks.specs.One.{reply_of};
ghost use Rattle.px_control.specs.Slots.{slot_of};
ghost use Rattle.px_control.specs.Marks.{cells_of};
ghost use Rattle.px_control.specs.Stack.{object_in};

use crate::frame::Frame;
use crate::marks::{Mark, Marks};
use crate::names::Names;
use crate::slot::Slot;
use crate::stack::{fill, slots_at, top};
use px_blocks::Send;
use px_normal::Operand;
use px_value::Value;
use sqlite_items::at;
use std::alloc::{AllocError, Global};
use std::marker::Model;

/// The stack, what was written and named since control came, and the turns of the call; seen as that of a machine.
/// No slot is written in a frame below the highest of those that stood when control came.
#[derive(Drop)]
pub struct Control {
    /// The lowest first.
    pub(crate) frames: Vec<Frame>,
    /// How many of the lowest frames stood when control came and weren't left since.
    pub(crate) base: usize,
    pub(crate) marks: Marks,
    pub(crate) named: Names,
    /// How many objects the other end has.
    pub(crate) known: u32,
    pub(crate) turns: u32,
}

impl Model for Control {
    ghost use Rattle.px_blocks.specs.Machine.{Control as MachineControl};
    ghost use Rattle.px_control.specs.Stack.{IsQuietBelow};

    ghost Value = { MachineControl };

    ghost view = { λ c. record { frames = c.frames.items; base = c.base; marks = c.marks; named = c.named; known = c.known; turns = c.turns } };

    ghost invariant = { λ c. IsQuietBelow c.base c.frames.items };
}

// The object of a reference.
fn object_of(value: &Value) -> Option<u32>
    ensures { result ≡ object_in value.now }
{
    match value {
        Value::Ref(object) => Some(*object),
        _ => None,
    }
}

impl Control {
    pub fn frames(&self) -> &[Frame]
        ensures { result.now ≡ self.now.frames }
    {
        self.frames.as_slice()
    }

    pub fn turns(&self) -> u32
        ensures { result ≡ self.now.turns }
    {
        self.turns
    }

    /// The slots of the frame that runs.
    pub fn top_slots(&self) -> &[Slot]
        ensures { map slot_of result.now ≡ machine_slots_at self.now.frames (machine_top self.now.frames) }
    {
        let frames = self.frames.as_slice();
        slots_at(frames, top(frames))
    }

    /// A value goes to a slot of the frame that runs, where one gets it.
    pub fn put(&mut self, to: Option<u16>, value: Value)
        ensures { self.new ≡ put_in_slot (machine_top self.old.frames) to value self.old }
    {
        let running = top(self.frames.as_slice());
        fill(&mut self.frames, running, to, value);
    }

    /// Marks a cell, if one was written.
    pub fn mark(&mut self, written: Option<Mark>) -> Result<(), AllocError>
        ensures ok { OnOk result (self.new ≡ also_marked (cells_of written) self.old) }
        ensures err { OnErr result (self.new ≡ self.old) }
    {
        if let Some(mark) = written {
            self.marks.add(mark)?;
        }
        Ok(())
    }

    // The object that an operand refers to.
    fn object(&self, operand: &Operand) -> Option<u32>
        ensures { result ≡ object_in (operand_of (values_of self.now) operand.now) }
    {
        match operand {
            Operand::Slot(slot) => match at(self.top_slots(), usize::from(*slot)) {
                Some(slot) => object_of(&slot.value),
                None => None,
            },
            Operand::Literal(value) => object_of(value),
        }
    }

    /// The send behind a statement names the object of its operand.
    pub fn name(&mut self, send: &Option<Send>) -> Result<(), AllocError>
        ensures ok { OnOk result (self.new ≡ sent send.now self.old) }
        ensures err { OnErr result (self.new ≡ self.old) }
    {
        if let Some(send) = send {
            if let Some(object) = self.object(&send.object) {
                self.named.add(send.kind, object)?;
            }
        }
        Ok(())
    }

    /// Whether the lowest frame alone is left, so that the call is at its end.
    pub fn is_last(&self) -> bool
        ensures { result ≡ is_last_frame self.now }
    {
        self.frames.len() < 2
    }

    /// The value in the slot of the lowest frame.
    pub fn reply(&self, alloc: Global) -> Result<Value, AllocError>
        ensures { IfOk result (λ v. v ≡ reply_of self.now) }
    {
        match at(slots_at(self.frames.as_slice(), 0), 0) {
            Some(slot) => slot.value.copy(alloc),
            None => Ok(Value::Null),
        }
    }
}
