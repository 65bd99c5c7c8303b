//! A message is taken in whole, or not at all.
ghost use Rattle.std.specs.Prelude.{◌≡◌, ◌≤◌, ◌+◌, ◌++◌, true, map, take, length, vec_len, vec_capacity, Some, None, IfOk, OnOk, OnErr};
ghost use Rattle.px_half.specs.Machine.{machine_of, closed_of};
ghost use Rattle.px_half.specs.Undo.{undone};
ghost use Rattle.px_half.specs.Absorbed.{with_room, with_updates, with_transfer, blank_frame, taken_in, stack_fits as stack_is_there, HasRoom, IfBad};
ghost use Rattle.px_half.specs.declared.absorb.AbsorbError.TheVariants.{NoMemory};

use crate::machine::Machine;
use crate::news::add_news;
use crate::take_in::{
    blank_frames, cells_fit, copied_cells, copied_slots, slots_fit, stack_fits, take_frames,
    write_cells,
};
use crate::undo::Change;
use px_code::{Frame, Plan};
use px_value::Heap;
use px_wire::{CellAt, SlotAt, Transfer, Updates};
use std::alloc::{AllocError, Global};
use thiserror::Error;

#[derive(Clone, Copy, Debug, PartialEq, Eq, Error)]
pub enum AbsorbError {
    /// The bytes are no message, or a message that names what isn't there.
    #[error("the message names what isn't there")]
    BadMessage,
    #[error("out of memory")]
    NoMemory,
}

impl From<AllocError> for AbsorbError {
    ghost from_gives = { λ _ e. e ≡ NoMemory };

    fn from(_: AllocError) -> Self {
        AbsorbError::NoMemory
    }
}

// The heap and its undo as they were when they had so many items.
fn cut(machine: &mut Machine, objects: u32, changes: usize)
    ensures machine { machine_of machine.new ≡ record (machine_of machine.old) { heap = take objects machine.old.heap } }
    ensures undo { machine.new.undo.items ≡ take changes machine.old.undo.items }
{
    machine.heap.cut(objects);
    machine.undo.truncate(changes);
}

// Adds the new objects, if they fit and each cell is there, and takes the room that the undo of the cells needs.
fn take_news(
    alloc: Global,
    plan: &Plan,
    heap: &mut Heap,
    undo: &mut Vec<Change>,
    updates: &Updates,
) -> Result<(), AbsorbError>
    ensures ok { OnOk result (with_room plan.now updates.now heap.old ≡ Some heap.new) }
    ensures room { OnOk result (vec_len undo.new + length updates.now.cells ≤ vec_capacity undo.new) }
    ensures bad { IfBad result (with_room plan.now updates.now heap.old ≡ None) }
    ensures front { take (length heap.old) heap.new ≡ heap.old }
    ensures undo_front { take (length undo.old.items) undo.new.items ≡ undo.old.items }
    ensures closed { undone undo.new.items heap.new ≡ undone undo.old.items heap.old }
{
    let all = add_news(alloc, &plan.code, updates.headers.as_slice(), heap, undo)?;
    if all && cells_fit(heap, updates.cells.as_slice()) {
        undo.reserve(updates.cells.len())?;
        return Ok(());
    }
    Err(AbsorbError::BadMessage)
}

/// The new objects and the cells of a message.
pub fn absorb_updates(
    alloc: Global,
    plan: &Plan,
    machine: &mut Machine,
    updates: &Updates,
) -> Result<(), AbsorbError>
    ensures ok { OnOk result (with_updates plan.now updates.now (machine_of machine.old) ≡ Some (machine_of machine.new)) }
    ensures bad { IfBad result (with_updates plan.now updates.now (machine_of machine.old) ≡ None) }
    ensures kept { OnErr result (machine_of machine.new ≡ machine_of machine.old) }
    ensures closed { closed_of machine.new ≡ closed_of machine.old }
{
    let cells = copied_cells(alloc, updates.cells.as_slice())?;
    let objects = machine.heap.len();
    let changes = machine.undo.len();
    if let Err(error) = take_news(alloc, plan, &mut machine.heap, &mut machine.undo, updates) {
        cut(machine, objects, changes);
        return Err(error);
    }
    write_cells(&mut machine.heap, &mut machine.undo, cells);
    Ok(())
}

/// What a transfer brings, in memory of its own.
#[derive(Drop)]
struct Brought {
    cells: Vec<CellAt>,
    slots: Vec<SlotAt>,
    frames: Vec<Frame>,
}

fn bring(alloc: Global, plan: &Plan, transfer: &Transfer) -> Result<Brought, AllocError>
    ensures cells { IfOk result (λ b. b.cells.items ≡ transfer.now.updates.cells) }
    ensures slots { IfOk result (λ b. b.slots.items ≡ transfer.now.slots) }
    ensures frames { IfOk result (λ b. b.frames.items ≡ map (blank_frame plan.now) transfer.now.frames) }
{
    Ok(Brought {
        cells: copied_cells(alloc, transfer.updates.cells.as_slice())?,
        slots: copied_slots(alloc, transfer.slots.as_slice())?,
        frames: blank_frames(alloc, plan, transfer.frames.as_slice())?,
    })
}

// The new objects of a transfer, if its slots are there too, and the room that the rest of it needs.
fn take_room(
    alloc: Global,
    plan: &Plan,
    machine: &mut Machine,
    transfer: &Transfer,
) -> Result<(), AbsorbError>
    requires { stack_is_there plan.now transfer.now machine.old.frames.items ≡ true }
    ensures ok { OnOk result (HasRoom plan.now transfer.now (machine_of machine.old) machine.new.heap) }
    ensures undo_room { OnOk result (vec_len machine.new.undo + length transfer.now.updates.cells ≤ vec_capacity machine.new.undo) }
    ensures frames_room { OnOk result (vec_len machine.new.frames + length transfer.now.frames ≤ vec_capacity machine.new.frames) }
    ensures bad { IfBad result (with_transfer plan.now transfer.now (machine_of machine.old) ≡ None) }
    ensures rest { machine_of machine.new ≡ record (machine_of machine.old) { heap = machine.new.heap } }
    ensures front { take (length machine.old.heap) machine.new.heap ≡ machine.old.heap }
    ensures undo_front { take (length machine.old.undo.items) machine.new.undo.items ≡ machine.old.undo.items }
    ensures closed { closed_of machine.new ≡ closed_of machine.old }
{
    machine.frames.reserve(transfer.frames.len())?;
    take_news(
        alloc,
        plan,
        &mut machine.heap,
        &mut machine.undo,
        &transfer.updates,
    )?;
    if slots_fit(plan, transfer, machine.frames.as_slice(), &machine.heap) {
        return Ok(());
    }
    Err(AbsorbError::BadMessage)
}

// Takes in what a transfer brings, where there is room for it.
fn take_brought(machine: &mut Machine, brought: Brought, base: u8)
    requires undo_room { vec_len machine.old.undo + length brought.cells.items ≤ vec_capacity machine.old.undo }
    requires frames_room { vec_len machine.old.frames + length brought.frames.items ≤ vec_capacity machine.old.frames }
    ensures machine { machine_of machine.new ≡ taken_in brought.cells.items brought.slots.items (take base machine.old.frames.items ++ brought.frames.items) machine.old.heap }
    ensures closed { closed_of machine.new ≡ closed_of machine.old }
{
    let Brought {
        cells,
        slots,
        frames,
    } = brought;
    write_cells(&mut machine.heap, &mut machine.undo, cells);
    take_frames(&mut machine.frames, usize::from(base), frames, slots);
    machine.base = machine.frames.len();
    machine.marks.clear();
    machine.named.clear();
}

/// Control comes, with frames, new objects and cells.
pub fn absorb_transfer(
    alloc: Global,
    plan: &Plan,
    machine: &mut Machine,
    transfer: &Transfer,
) -> Result<(), AbsorbError>
    ensures ok { OnOk result (with_transfer plan.now transfer.now (machine_of machine.old) ≡ Some (machine_of machine.new)) }
    ensures bad { IfBad result (with_transfer plan.now transfer.now (machine_of machine.old) ≡ None) }
    ensures kept { OnErr result (machine_of machine.new ≡ machine_of machine.old) }
    ensures closed { closed_of machine.new ≡ closed_of machine.old }
{
    if !stack_fits(plan, transfer, machine.frames.as_slice()) {
        return Err(AbsorbError::BadMessage);
    }
    let brought = bring(alloc, plan, transfer)?;
    let objects = machine.heap.len();
    let changes = machine.undo.len();
    if let Err(error) = take_room(alloc, plan, machine, transfer) {
        cut(machine, objects, changes);
        return Err(error);
    }
    take_brought(machine, brought, transfer.base);
    Ok(())
}
