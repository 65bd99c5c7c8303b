//! What an end takes in of a message.
ghost use Rattle.std.specs.Prelude.{◌≡◌, ◌≤◌, ◌+◌, ◌++◌, ◌∷◌, [], map, take, length, vec_len, vec_capacity, IfOk};
ghost use Rattle.px_blocks.specs.Plan.{Plan};
ghost use Rattle.px_blocks.specs.Message.{with_cells, blank_frame, all_settled};
ghost use Rattle.px_control.specs.Taken.{with_placed};

use crate::blanks::blank_slots;
use crate::frame::Frame;
use crate::heap_end::HeapEnd;
use crate::message::{CellAt, FrameTold, SlotAt};
use px_normal::Code;
use std::alloc::{AllocError, Global};

/// The frames that a message brings.
pub fn blank_frames(
    alloc: Global,
    code: &Code,
    told: &[FrameTold],
) -> Result<Vec<Frame>, AllocError>
    ensures blank { IfOk result (λ frames. (plan : Plan) → plan.code ≡ code.now → frames.items ≡ map (blank_frame plan) told.now) }
    ensures settled { IfOk result (λ frames. all_settled frames.items ≡ frames.items) }
{
    let mut frames = Vec::new(alloc);
    for frame in told {
        let slots = blank_slots(alloc, code, frame.method)?;
        frames.push(Frame::new(frame.method, frame.back, slots))?;
    }
    Ok(frames)
}

/// Writes cells, where there is room for that.
pub fn write_cells<E: HeapEnd>(end: &mut E, cells: Vec<CellAt>)
    requires { E.has_room end.old (length cells.items) }
    ensures written { E.objects end.new ≡ with_cells cells.items (E.objects end.old) }
    ensures closed { E.closed end.new ≡ E.closed end.old }
{
    for cell in cells {
        let CellAt {
            object,
            index,
            value,
        } = cell;
        end.write(object, index, value);
    }
}

// Forgets what was written in the frames from a place on, where nothing was below it.
fn settle_from(frames: &mut Vec<Frame>, from: usize)
    requires { all_settled (take from frames.old.items) ≡ take from frames.old.items }
    ensures settled { frames.new.items ≡ all_settled frames.old.items }
    ensures len { vec_len frames.new ≡ vec_len frames.old }
    ensures capacity { vec_capacity frames.new ≡ vec_capacity frames.old }
{
    for frame in from..frames.len() {
        frames[frame].settle();
    }
}

fn push_frames(frames: &mut Vec<Frame>, more: Vec<Frame>)
    requires { vec_len frames.old + length more.items ≤ vec_capacity frames.old }
    ensures { frames.new.items ≡ frames.old.items ++ more.items }
{
    for frame in more {
        frames.push_reserved(frame);
    }
}

fn place(frames: &mut Vec<Frame>, slot: SlotAt)
    ensures { frames.new.items ≡ with_placed (slot ∷ []) frames.old.items }
{
    let SlotAt { frame, slot, value } = slot;
    if frame < frames.len() {
        frames[frame].place(slot, value);
    }
}

fn place_slots(frames: &mut Vec<Frame>, slots: Vec<SlotAt>)
    ensures { frames.new.items ≡ with_placed slots.items frames.old.items }
{
    for slot in slots {
        place(frames, slot);
    }
}

/// The lowest frames stay, and more stand on them, where there is room for these; then slots get their values.
pub fn take_frames(
    frames: &mut Vec<Frame>,
    quiet: usize,
    base: usize,
    more: Vec<Frame>,
    slots: Vec<SlotAt>,
)
    requires room { vec_len frames.old + length more.items ≤ vec_capacity frames.old }
    requires quiet { all_settled (take quiet frames.old.items) ≡ take quiet frames.old.items }
    requires blank { all_settled more.items ≡ more.items }
    ensures { frames.new.items ≡ with_placed slots.items (all_settled (take base frames.old.items ++ more.items)) }
{
    settle_from(frames, quiet);
    frames.truncate(base);
    push_frames(frames, more);
    place_slots(frames, slots);
}
