//! Control comes, by a message that is taken in whole, or not at all.
ghost use Rattle.std.specs.Prelude.{◌≡◌, ◌≤◌, ◌++◌, ◌&&◌, true, false, map, take, length, IfOk, OnOk, OnErr};
ghost use Rattle.std.specs.List.{list_all};
ghost use Rattle.px_blocks.specs.Plan.{Plan};
ghost use Rattle.px_blocks.specs.Message.{with_updates, absorbed as machine_absorbed};
ghost use Rattle.px_control.specs.Taken.{with_news, updates_fit, slot_fits, is_taken};
ghost use Rattle.px_control.specs.Refused.{IfBad, machine};
ghost use Rattle.px_control.specs.declared.absorb.AbsorbError.TheVariants.{NoMemory};

use crate::control::Control;
use crate::fitting::{cells_fit, slots_fit};
use crate::frame::Frame;
use crate::heap_end::HeapEnd;
use crate::message::{Transfer, Updates};
use crate::news::add_news;
use crate::taking::{blank_frames, take_frames, write_cells};
use px_normal::Code;
use std::alloc::{AllocError, Global};

#[derive(Clone, Copy, Debug, PartialEq, Eq)]
pub enum AbsorbError {
    /// The message names what isn't there, or has more new objects than there is room for.
    BadMessage,
    NoMemory,
}

impl From<AllocError> for AbsorbError {
    ghost from_gives = { λ _ e. e ≡ NoMemory };

    fn from(_: AllocError) -> Self {
        AbsorbError::NoMemory
    }
}

// Adds the new objects, if they fit and each cell is there, and finds the room that writing the cells takes.
fn take_news<E: HeapEnd>(
    alloc: Global,
    code: &Code,
    updates: &Updates,
    end: &mut E,
) -> Result<(), AbsorbError>
    ensures ok { OnOk result (updates_fit code.now updates.now (E.objects end.old) ≡ true) }
    ensures news { OnOk result (E.objects end.new ≡ with_news code.now updates.now.headers (E.objects end.old)) }
    ensures room { OnOk result (E.has_room end.new (length updates.now.cells)) }
    ensures bad { IfBad result (updates_fit code.now updates.now (E.objects end.old) ≡ false) }
    ensures front { take (length (E.objects end.old)) (E.objects end.new) ≡ E.objects end.old }
    ensures closed { E.closed end.new ≡ E.closed end.old }
{
    let all = add_news(alloc, code, updates.headers.as_slice(), end)?;
    if !all {
        return Err(AbsorbError::BadMessage);
    }
    if !cells_fit(end.heap(), updates.cells.as_slice()) {
        return Err(AbsorbError::BadMessage);
    }
    end.reserve(updates.cells.len())?;
    Ok(())
}

/// The new objects and the cells of a message.
pub fn absorb_updates<E: HeapEnd>(
    alloc: Global,
    code: &Code,
    end: &mut E,
    updates: Updates,
) -> Result<(), AbsorbError>
    ensures taken { OnOk result (updates_fit code.now updates (E.objects end.old) ≡ true) }
    ensures bad { IfBad result (updates_fit code.now updates (E.objects end.old) ≡ false) }
    ensures objects { OnOk result ((plan : Plan) → plan.code ≡ code.now → E.objects end.new ≡ with_updates plan updates (E.objects end.old)) }
    ensures kept { OnErr result (E.objects end.new ≡ E.objects end.old) }
    ensures closed { E.closed end.new ≡ E.closed end.old }
{
    let count = end.heap().len();
    if let Err(error) = take_news(alloc, code, &updates, end) {
        end.cut(count);
        return Err(error);
    }
    let Updates { headers: _, cells } = updates;
    write_cells(end, cells);
    Ok(())
}

// The new objects of a transfer, if its slots fit too.
fn take_fitting<E: HeapEnd>(
    alloc: Global,
    code: &Code,
    lower: &[Frame],
    news: &[Frame],
    transfer: &Transfer,
    end: &mut E,
) -> Result<(), AbsorbError>
    ensures ok { OnOk result (updates_fit code.now transfer.now.updates (E.objects end.old) && list_all (slot_fits (lower.now ++ news.now) (length (with_news code.now transfer.now.updates.headers (E.objects end.old)))) transfer.now.slots ≡ true) }
    ensures news { OnOk result (E.objects end.new ≡ with_news code.now transfer.now.updates.headers (E.objects end.old)) }
    ensures room { OnOk result (E.has_room end.new (length transfer.now.updates.cells)) }
    ensures bad { IfBad result (updates_fit code.now transfer.now.updates (E.objects end.old) && list_all (slot_fits (lower.now ++ news.now) (length (with_news code.now transfer.now.updates.headers (E.objects end.old)))) transfer.now.slots ≡ false) }
    ensures front { take (length (E.objects end.old)) (E.objects end.new) ≡ E.objects end.old }
    ensures closed { E.closed end.new ≡ E.closed end.old }
{
    take_news(alloc, code, &transfer.updates, end)?;
    if !slots_fit(lower, news, end.heap().len(), transfer.slots.as_slice()) {
        return Err(AbsorbError::BadMessage);
    }
    Ok(())
}

impl Control {
    /// Control comes, with frames, new objects and cells; the block that comes next.
    pub fn absorb<E: HeapEnd>(
        &mut self,
        alloc: Global,
        code: &Code,
        end: &mut E,
        transfer: Transfer,
    ) -> Result<u32, AbsorbError>
        ensures block { IfOk result (λ block. block ≡ transfer.block) }
        ensures taken { OnOk result ((plan : Plan) → plan.code ≡ code.now → is_taken plan transfer self.old.frames (E.objects end.old) ≡ true) }
        ensures bad { IfBad result ((plan : Plan) → plan.code ≡ code.now → is_taken plan transfer self.old.frames (E.objects end.old) ≡ false) }
        ensures absorbed { OnOk result ((plan : Plan) → plan.code ≡ code.now → machine_absorbed plan transfer (machine (E.objects end.old) self.old) ≡ machine (E.objects end.new) self.new) }
        ensures kept { OnErr result (self.new ≡ self.old) }
        ensures objects_kept { OnErr result (E.objects end.new ≡ E.objects end.old) }
        ensures closed { E.closed end.new ≡ E.closed end.old }
    {
        if transfer.base > self.frames.len() {
            return Err(AbsorbError::BadMessage);
        }
        let news = blank_frames(alloc, code, transfer.frames.as_slice())?;
        self.frames.reserve(news.len())?;
        let count = end.heap().len();
        let lower = &self.frames.as_slice()[..transfer.base];
        if let Err(error) = take_fitting(alloc, code, lower, news.as_slice(), &transfer, end) {
            end.cut(count);
            return Err(error);
        }
        let Transfer {
            block,
            turns,
            base,
            frames: _,
            slots,
            updates,
        } = transfer;
        let Updates { headers: _, cells } = updates;
        write_cells(end, cells);
        take_frames(
            &mut self.frames,
            self.base.saturating_sub(1),
            base,
            news,
            slots,
        );
        self.base = self.frames.len();
        self.marks.clear();
        self.named.clear();
        self.known = end.heap().len();
        self.turns = turns;
        Ok(block)
    }
}
