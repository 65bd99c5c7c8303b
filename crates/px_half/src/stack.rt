//! The frames of a call, the lowest first.
ghost use Rattle.std.specs.Prelude.{◌≡◌, IfOk};
ghost use Rattle.px_code.specs.Act.{operand as operand_of};
ghost use Rattle.px_code.specs.Machine.{value_in, slots_at, filled, filled_if, top as top_of, top_values};

use px_code::{Frame, Operand, Slot};
use px_value::Value;
use sqlite_items::at;
use std::alloc::{AllocError, Global};

/// The place of the frame that runs; 0 where there is none.
pub fn top(frames: &[Frame]) -> usize
    ensures { result ≡ top_of frames.now }
{
    frames.len().saturating_sub(1)
}

fn slot_value(alloc: Global, slots: &[Slot], slot: u16) -> Result<Value, AllocError>
    ensures { IfOk result (λ v. v ≡ value_in slots.now slot) }
{
    match at(slots, usize::from(slot)) {
        Some(slot) => slot.value.copy(alloc),
        None => Ok(Value::Null),
    }
}

/// The value of a slot; null where there is none.
pub fn slot_at(
    alloc: Global,
    frames: &[Frame],
    frame: usize,
    slot: u16,
) -> Result<Value, AllocError>
    ensures { IfOk result (λ v. v ≡ value_in (slots_at frames.now frame) slot) }
{
    match at(frames, frame) {
        Some(frame) => slot_value(alloc, frame.slots.as_slice(), slot),
        None => Ok(Value::Null),
    }
}

/// The value of an operand in the frame that runs.
pub fn operand(alloc: Global, frames: &[Frame], operand: &Operand) -> Result<Value, AllocError>
    ensures { IfOk result (λ v. v ≡ operand_of (top_values frames.now) operand.now) }
{
    match operand {
        Operand::Slot(slot) => slot_at(alloc, frames, top(frames), *slot),
        Operand::Literal(value) => value.copy(alloc),
    }
}

/// Writes a slot, if there is one.
pub fn fill(frames: &mut Vec<Frame>, frame: usize, slot: u16, value: Value)
    ensures { frames.new.items ≡ filled frames.old.items frame slot value }
{
    let slot = usize::from(slot);
    if frame < frames.len() && slot < frames[frame].slots.len() {
        frames[frame].slots.fill(slot, value);
    }
}

/// Writes a slot, if one is named.
pub fn fill_if(frames: &mut Vec<Frame>, frame: usize, slot: Option<u16>, value: Value)
    ensures { frames.new.items ≡ filled_if frames.old.items frame slot value }
{
    if let Some(slot) = slot {
        fill(frames, frame, slot, value);
    }
}
