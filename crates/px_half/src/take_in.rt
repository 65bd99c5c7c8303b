//! What an end takes in of a message.
ghost use Rattle.std.specs.Prelude.{◌≡◌, ◌≤◌, ◌+◌, ◌++◌, map, take, length, vec_len, vec_capacity, IfOk};
ghost use Rattle.px_half.specs.Undo.{undone};
ghost use Rattle.px_half.specs.Absorbed.{leads as leads_to, cell_fits as cell_is_there, cells_fit as cells_are_there, with_cells, frame_fits as frame_is_there, blank_slots as blank_slots_of, blank_frame, blank_count as blank_count_of, slot_count as slot_count_of, slot_fits as slot_is_there, slots_fit as slots_are_there, with_slots, settled_frame, stack_fits as stack_is_there};
ghost use Rattle.std.specs.Option.{option_copied};
ghost use Rattle.std.specs.List.{list_all};

use crate::entering::{push_blanks, root_slots};
use crate::stack::fill;
use crate::undo::{Change, write_reserved};
use px_code::{Frame, Plan, Slots};
use px_value::{Heap, Value};
use px_wire::{CellAt, SlotAt, Transfer};
use sqlite_items::at;
use std::alloc::{AllocError, Global};

// ---- cells

fn leads(heap: &Heap, value: &Value) -> bool
    ensures { result ≡ leads_to heap.now value.now }
{
    match value {
        Value::Ref(object) => *object < heap.len(),
        _ => true,
    }
}

fn cell_fits(heap: &Heap, cell: &CellAt) -> bool
    ensures { result ≡ cell_is_there heap.now cell.now }
{
    heap.get(cell.object, cell.index).is_some() & leads(heap, &cell.value)
}

/// Whether each cell is there, and each reference leads to an object.
pub fn cells_fit(heap: &Heap, cells: &[CellAt]) -> bool
    ensures { result ≡ cells_are_there cells.now heap.now }
{
    for cell in cells {
        if !cell_fits(heap, cell) {
            return false;
        }
    }
    true
}

/// Cells in memory of their own, so that writing them takes none.
pub fn copied_cells(alloc: Global, cells: &[CellAt]) -> Result<Vec<CellAt>, AllocError>
    ensures { IfOk result (λ copies. copies.items ≡ cells.now) }
{
    let mut copies = Vec::new(alloc);
    for cell in cells {
        let value = cell.value.copy(alloc)?;
        copies.push(CellAt {
            object: cell.object,
            index: cell.index,
            value,
        })?;
    }
    Ok(copies)
}

/// Writes cells, where the undo has room to note what stood in them.
pub fn write_cells(heap: &mut Heap, undo: &mut Vec<Change>, cells: Vec<CellAt>)
    requires room { vec_len undo.old + length cells.items ≤ vec_capacity undo.old }
    ensures written { heap.new ≡ with_cells cells.items heap.old }
    ensures undone { undone undo.new.items heap.new ≡ undone undo.old.items heap.old }
{
    for cell in cells {
        let CellAt {
            object,
            index,
            value,
        } = cell;
        write_reserved(heap, undo, object, index, value);
    }
}

// ---- the stack

fn frame_fits(plan: &Plan, frame: px_wire::Frame) -> bool
    ensures { result ≡ frame_is_there plan.now frame }
{
    (usize::from(frame.method) <= plan.code.methods.len())
        & (frame.back as usize <= plan.blocks.blocks.len())
}

fn frames_fit(plan: &Plan, frames: &[px_wire::Frame]) -> bool
    ensures { result ≡ list_all (frame_is_there plan.now) frames.now }
{
    for frame in frames {
        if !frame_fits(plan, *frame) {
            return false;
        }
    }
    true
}

/// Whether the block, the frames that stay and those that come are there.
pub fn stack_fits(plan: &Plan, transfer: &Transfer, frames: &[Frame]) -> bool
    ensures { result ≡ stack_is_there plan.now transfer.now frames.now }
{
    (transfer.block as usize <= plan.blocks.blocks.len())
        & (usize::from(transfer.base) <= frames.len())
        & frames_fit(plan, transfer.frames.as_slice())
}

fn blank_count(plan: &Plan, frame: Option<&px_wire::Frame>) -> usize
    ensures { result ≡ blank_count_of plan.now (option_copied frame.entry) }
{
    match frame {
        None => 0,
        Some(frame) => method_count(plan, frame.method),
    }
}

// How many slots a frame of a method has.
fn method_count(plan: &Plan, method: u16) -> usize
    ensures { result ≡ length (blank_slots_of plan.now method) }
{
    if method == 0 {
        return 1;
    }
    match at(plan.code.methods.as_slice(), usize::from(method) - 1) {
        Some(method) => method.slots.len(),
        None => 0,
    }
}

fn slot_count(plan: &Plan, transfer: &Transfer, frames: &[Frame], frame: u16) -> usize
    ensures { result ≡ slot_count_of plan.now transfer.now frames.now frame }
{
    let base = u16::from(transfer.base);
    if frame < base {
        match at(frames, usize::from(frame)) {
            Some(frame) => frame.slots.len(),
            None => 0,
        }
    } else {
        blank_count(
            plan,
            at(transfer.frames.as_slice(), usize::from(frame - base)),
        )
    }
}

fn slot_fits(plan: &Plan, transfer: &Transfer, frames: &[Frame], heap: &Heap, slot: &SlotAt) -> bool
    ensures { result ≡ slot_is_there plan.now transfer.now frames.now heap.now slot.now }
{
    (usize::from(slot.slot) < slot_count(plan, transfer, frames, slot.frame))
        & leads(heap, &slot.value)
}

/// Whether each slot is there, and each reference leads to an object.
pub fn slots_fit(plan: &Plan, transfer: &Transfer, frames: &[Frame], heap: &Heap) -> bool
    ensures { result ≡ slots_are_there plan.now transfer.now frames.now heap.now }
{
    for slot in transfer.slots.as_slice() {
        if !slot_fits(plan, transfer, frames, heap, slot) {
            return false;
        }
    }
    true
}

fn blank_slots(alloc: Global, plan: &Plan, method: u16) -> Result<Slots, AllocError>
    ensures { IfOk result (λ slots. slots ≡ blank_slots_of plan.now method) }
{
    if method == 0 {
        return root_slots(alloc);
    }
    let mut slots = Slots::new(alloc);
    if let Some(method) = at(plan.code.methods.as_slice(), usize::from(method) - 1) {
        push_blanks(&mut slots, method.slots.as_slice())?;
    }
    Ok(slots)
}

/// The frames that a message brings.
pub fn blank_frames(
    alloc: Global,
    plan: &Plan,
    told: &[px_wire::Frame],
) -> Result<Vec<Frame>, AllocError>
    ensures { IfOk result (λ frames. frames.items ≡ map (blank_frame plan.now) told.now) }
{
    let mut frames = Vec::new(alloc);
    for frame in told {
        let slots = blank_slots(alloc, plan, frame.method)?;
        frames.push(Frame {
            method: frame.method,
            back: frame.back,
            slots,
        })?;
    }
    Ok(frames)
}

/// Slots in memory of their own, so that filling them takes none.
pub fn copied_slots(alloc: Global, slots: &[SlotAt]) -> Result<Vec<SlotAt>, AllocError>
    ensures { IfOk result (λ copies. copies.items ≡ slots.now) }
{
    let mut copies = Vec::new(alloc);
    for slot in slots {
        let value = slot.value.copy(alloc)?;
        copies.push(SlotAt {
            frame: slot.frame,
            slot: slot.slot,
            value,
        })?;
    }
    Ok(copies)
}

fn put_frames(frames: &mut Vec<Frame>, more: Vec<Frame>)
    requires { vec_len frames.old + length more.items ≤ vec_capacity frames.old }
    ensures { frames.new.items ≡ frames.old.items ++ more.items }
{
    for frame in more {
        frames.push_reserved(frame);
    }
}

fn fill_slots(frames: &mut Vec<Frame>, slots: Vec<SlotAt>)
    ensures { frames.new.items ≡ with_slots slots.items frames.old.items }
{
    for slot in slots {
        let SlotAt {
            frame,
            slot: place,
            value,
        } = slot;
        fill(frames, usize::from(frame), place, value);
    }
}

fn settle(frames: &mut Vec<Frame>)
    ensures { frames.new.items ≡ map settled_frame frames.old.items }
{
    for frame in 0..frames.len() {
        frames[frame].slots.settle();
    }
}

/// The lowest frames stay, and more of them stand on these, where there is room for them; then slots are filled.
pub fn take_frames(frames: &mut Vec<Frame>, base: usize, more: Vec<Frame>, slots: Vec<SlotAt>)
    requires { vec_len frames.old + length more.items ≤ vec_capacity frames.old }
    ensures { frames.new.items ≡ map settled_frame (with_slots slots.items (take base frames.old.items ++ more.items)) }
{
    frames.truncate(base);
    put_frames(frames, more);
    fill_slots(frames, slots);
    settle(frames);
}
