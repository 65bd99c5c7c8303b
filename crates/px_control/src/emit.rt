//! What an end tells the other.
ghost use Rattle.std.specs.Prelude.{◌≡◌, ◌≤◌, ◌-◌, ◌++◌, [], map, drop, IfOk, OnOk, OnErr};
ghost use Rattle.px_value.specs.Heap.{heap_counted, max_counted};
ghost use Rattle.px_effects.specs.Act.{header_of};
ghost use Rattle.px_blocks.specs.Plan.{Plan};
ghost use Rattle.px_blocks.specs.Message.{frame_told, slot_if, written_from, written_slots, updates as machine_updates, transfer as machine_transfer, emitted};
ghost use Rattle.px_control.specs.Slots.{slot_of};

use crate::carry::carried_cells;
use crate::control::Control;
use crate::frame::Frame;
use crate::homes::Homes;
use crate::message::{FrameTold, SlotAt, Transfer, Updates};
use crate::slot::Slot;
use px_value::{Header, Heap, Object};
use std::alloc::{AllocError, Global};

// The headers of new objects.
fn headers(alloc: Global, objects: &[Object]) -> Result<Vec<Header>, AllocError>
    requires { heap_counted objects.now ≤ max_counted }
    ensures { IfOk result (λ headers. headers.items ≡ map header_of objects.now) }
{
    let mut headers = Vec::new(alloc);
    for object in objects {
        headers.push(Header {
            kind: object.header.kind,
            site: object.header.site,
            length: object.cells.len() as u32,
        })?;
    }
    Ok(headers)
}

// The objects from a place on.
fn objects_from(heap: &Heap, from: u32) -> &[Object]
    ensures objects { result.now ≡ drop from heap.now }
    ensures few { heap_counted result.now ≤ max_counted }
{
    let _few = heap.counted();
    let objects = heap.as_slice();
    let from = from as usize;
    if from < objects.len() {
        &objects[from..]
    } else {
        &[]
    }
}

fn frames_from(frames: &[Frame], from: usize) -> &[Frame]
    ensures { result.now ≡ drop from frames.now }
{
    if from < frames.len() {
        &frames[from..]
    } else {
        &[]
    }
}

// The frames above the lowest ones that stayed.
fn frames_told(alloc: Global, frames: &[Frame]) -> Result<Vec<FrameTold>, AllocError>
    ensures { IfOk result (λ told. told.items ≡ map frame_told frames.now) }
{
    let mut told = Vec::new(alloc);
    for frame in frames {
        told.push(FrameTold {
            method: frame.method(),
            back: frame.back(),
        })?;
    }
    Ok(told)
}

fn push_slot(
    alloc: Global,
    told: &mut Vec<SlotAt>,
    frame: usize,
    at: usize,
    slot: &Slot,
) -> Result<(), AllocError>
    ensures { OnOk result (told.new.items ≡ told.old.items ++ slot_if slot.now.written frame at slot.now.value []) }
{
    if slot.written {
        told.push(SlotAt {
            frame,
            slot: at,
            value: slot.value.copy(alloc)?,
        })?;
    }
    Ok(())
}

fn push_written(
    alloc: Global,
    told: &mut Vec<SlotAt>,
    frame: usize,
    slots: &[Slot],
) -> Result<(), AllocError>
    ensures { OnOk result (told.new.items ≡ told.old.items ++ written_from frame 0 (map slot_of slots.now)) }
{
    for at in 0..slots.len() {
        push_slot(alloc, told, frame, at, &slots[at])?;
    }
    Ok(())
}

// The written slots of the frames from a place on.
fn slots_told(alloc: Global, frames: &[Frame], from: usize) -> Result<Vec<SlotAt>, AllocError>
    ensures { IfOk result (λ told. told.items ≡ written_slots from (drop from frames.now)) }
{
    let mut told = Vec::new(alloc);
    for frame in from..frames.len() {
        push_written(alloc, &mut told, frame, frames[frame].slots().as_slice())?;
    }
    Ok(told)
}

impl Control {
    /// The objects that the other end doesn't know, and the cells that were written and named.
    pub fn updates<H: Homes>(
        &self,
        alloc: Global,
        homes: &H,
        heap: &Heap,
    ) -> Result<Updates, AllocError>
        ensures { IfOk result (λ u. (plan : Plan) → plan.home ≡ H.home homes.now → u ≡ machine_updates plan self.now heap.now) }
    {
        let headers = headers(alloc, objects_from(heap, self.known))?;
        let cells = carried_cells(alloc, homes, heap, &self.named, self.marks.as_slice())?;
        Ok(Updates { headers, cells })
    }

    // The slots that were written since control came.
    fn written(&self, alloc: Global) -> Result<Vec<SlotAt>, AllocError>
        ensures { IfOk result (λ told. told.items ≡ written_slots 0 self.now.frames) }
    {
        slots_told(alloc, self.frames.as_slice(), self.base.saturating_sub(1))
    }

    // The message by which control goes to the other end.
    fn transfer<H: Homes>(
        &self,
        alloc: Global,
        homes: &H,
        block: u32,
        heap: &Heap,
    ) -> Result<Transfer, AllocError>
        ensures { IfOk result (λ t. (plan : Plan) → plan.home ≡ H.home homes.now → t ≡ machine_transfer plan block self.now heap.now) }
    {
        let frames = frames_told(alloc, frames_from(self.frames.as_slice(), self.base))?;
        let slots = self.written(alloc)?;
        let updates = self.updates(alloc, homes, heap)?;
        Ok(Transfer {
            block,
            turns: self.turns,
            base: self.base,
            frames,
            slots,
            updates,
        })
    }

    // The other end has all objects, and all that was written and named.
    fn told(&mut self, heap: &Heap)
        ensures { self.new ≡ (emitted (record { heap = heap.now; prints = []; control = self.old })).control }
    {
        self.marks.clear();
        self.named.clear();
        self.known = heap.len();
    }

    /// Control goes to block `block` at the other end.
    pub fn emit<H: Homes>(
        &mut self,
        alloc: Global,
        homes: &H,
        block: u32,
        heap: &Heap,
    ) -> Result<Transfer, AllocError>
        ensures told { IfOk result (λ t. (plan : Plan) → plan.home ≡ H.home homes.now → t ≡ machine_transfer plan block self.old heap.now) }
        ensures control { OnOk result (self.new ≡ (emitted (record { heap = heap.now; prints = []; control = self.old })).control) }
        ensures kept { OnErr result (self.new ≡ self.old) }
    {
        let transfer = self.transfer(alloc, homes, block, heap)?;
        self.told(heap);
        Ok(transfer)
    }
}
