//! The frames of a call, the lowest first.
ghost use Rattle.std.specs.Prelude.{◌≡◌, map};
ghost use Rattle.px_blocks.specs.Machine.{slots_at as machine_slots_at, top as machine_top};
ghost use Rattle.px_control.specs.Slots.{slot_of};
ghost use Rattle.px_control.specs.Stack.{filled_if};

use crate::frame::Frame;
use crate::slot::Slot;
use px_value::Value;
use sqlite_items::at;

/// The place of the frame that runs; 0 where there is none.
pub fn top(frames: &[Frame]) -> usize
    ensures { result ≡ machine_top frames.now }
{
    frames.len().saturating_sub(1)
}

/// The slots of a frame, none where there is no frame.
pub fn slots_at(frames: &[Frame], frame: usize) -> &[Slot]
    ensures { map slot_of result.now ≡ machine_slots_at frames.now frame }
{
    match at(frames, frame) {
        Some(frame) => frame.slots().as_slice(),
        None => &[],
    }
}

/// Writes a slot of a frame, where one gets the value.
pub fn fill(frames: &mut Vec<Frame>, frame: usize, to: Option<u16>, value: Value)
    ensures { frames.new.items ≡ filled_if frames.old.items frame to value }
{
    if let Some(to) = to {
        if frame < frames.len() {
            frames[frame].fill(usize::from(to), value);
        }
    }
}
