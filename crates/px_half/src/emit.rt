//! What an end tells the other.
ghost use Rattle.std.specs.Prelude.{◌≡◌, ◌≤◌, ◌<◌, ◌^◌, ◌++◌, map, drop, length, IfOk, OnOk};
ghost use Rattle.std.specs.List.{AllByRecursion};
ghost use Rattle.std.specs.Option.{option_copied};
ghost use Rattle.px_value.specs.declared.object.Object.{Object};
ghost use Rattle.px_half.specs.Machine.{machine_of};
ghost use Rattle.px_half.specs.Messages.{AreUpdates, frame_told, written_from, written_slots, IsTellableFrame, IsTellableHeap};
ghost use Rattle.px_wire.specs.Fitting.{UpdatesHaveSpelling};

use crate::carry::carried_cells;
use crate::machine::Machine;
use px_code::{Frame, Plan, Slot};
use px_value::{Header, Object};
use px_wire::{SlotAt, Updates};
use sqlite_items::Items;
use std::alloc::{AllocError, Global};

// The headers of the objects from a place on.
fn headers(alloc: Global, objects: &[Object]) -> Result<Items<Header>, AllocError>
    ensures { IfOk result (λ headers. headers ≡ map (λ (o : Object). o.header) objects.now) }
{
    let mut headers = Items::new(alloc);
    for object in objects {
        headers.push(object.header)?;
    }
    Ok(headers)
}

// The objects from a place on.
fn objects_from(objects: &[Object], from: usize) -> &[Object]
    ensures { result.now ≡ drop from objects.now }
{
    if from < objects.len() {
        &objects[from..]
    } else {
        &[]
    }
}

/// The objects that the other end doesn't know, and the cells that travel.
#[tactic(auto, using(crate::proofs::Telling::updates_spelled))]
pub fn updates(
    alloc: Global,
    plan: Option<&Plan>,
    known: u32,
    machine: &Machine,
) -> Result<Updates, AllocError>
    requires { IsTellableHeap machine.now.heap }
    ensures are { IfOk result (λ u. AreUpdates (option_copied plan.entry) known (machine_of machine.now) u) }
    ensures has_spelling { IfOk result (λ u. UpdatesHaveSpelling u) }
{
    let _few: u32 = machine.heap.len();
    let headers = headers(alloc, objects_from(machine.heap.as_slice(), known as usize))?;
    let cells = carried_cells(alloc, plan, machine)?;
    // A heap has no more than 100,000 cells.
    if cells.len() > u32::MAX as usize {
        return Err(AllocError);
    }
    Ok(Updates { headers, cells })
}

fn frames_from(frames: &[Frame], from: usize) -> &[Frame]
    ensures { result.now ≡ drop from frames.now }
{
    if from < frames.len() {
        &frames[from..]
    } else {
        &[]
    }
}

fn push_told(told: &mut Items<px_wire::Frame>, frames: &[Frame]) -> Result<(), AllocError>
    ensures { OnOk result (told.new ≡ told.old ++ map frame_told frames.now) }
{
    for frame in frames {
        told.push(px_wire::Frame {
            method: frame.method,
            back: frame.back,
        })?;
    }
    Ok(())
}

/// The frames above the lowest ones that stayed.
pub fn frames_told(
    alloc: Global,
    frames: &[Frame],
    base: usize,
) -> Result<Items<px_wire::Frame>, AllocError>
    ensures { IfOk result (λ told. told ≡ map frame_told (drop base frames.now)) }
{
    let mut told = Items::new(alloc);
    push_told(&mut told, frames_from(frames, base))?;
    Ok(told)
}

fn push_written(
    alloc: Global,
    told: &mut Items<SlotAt>,
    frame: u16,
    slots: &[Slot],
) -> Result<(), AllocError>
    requires { length slots.now ≤ 2 ^ 16 }
    ensures { OnOk result (told.new ≡ told.old ++ written_from frame 0 slots.now) }
{
    for slot in 0..slots.len() {
        if slots[slot].written {
            told.push(SlotAt {
                frame,
                slot: slot as u16,
                value: slots[slot].value.copy(alloc)?,
            })?;
        }
    }
    Ok(())
}

/// The slots that were written since control came, in order.
pub fn slots_told(alloc: Global, frames: &[Frame]) -> Result<Items<SlotAt>, AllocError>
    requires few { length frames.now ≤ 255 }
    requires small { AllByRecursion IsTellableFrame frames.now }
    ensures { IfOk result (λ told. told ≡ written_slots 0 frames.now) }
{
    let mut told = Items::new(alloc);
    for frame in 0..frames.len() {
        push_written(
            alloc,
            &mut told,
            frame as u16,
            frames[frame].slots.as_slice(),
        )?;
    }
    Ok(told)
}
