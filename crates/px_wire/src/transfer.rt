//! The message that hands control to the other end.
ghost use Rattle.std.specs.Prelude.{◌≡◌, ◌<◌, ◌^◌, ◌++◌, OnOk, length};
ghost use Rattle.std.specs.List.{AllByRecursion};
ghost use Rattle.px_wire.specs.Spelling.{frames_bytes, transfer_bytes};
ghost use Rattle.px_wire.specs.Fitting.{FrameIsInRange, TransferHasSpelling, TransferIsInRange};
ghost use Rattle.px_wire.specs.Reading.{Gives, frames_at, transfer_at};

use crate::frame::Frame;
use crate::number::{put_u32, take_u8, take_u32};
use crate::order::take_ordered;
use crate::part::{put_counted, put_items, take_items};
use crate::slot::SlotAt;
use crate::unread::Unread;
use crate::updates::{Updates, put_updates, take_updates};
use sqlite_items::Items;
use std::alloc::{AllocError, Global};

#[derive(Debug, Drop)]
pub struct Transfer {
    /// The number of the block with which the other end goes on.
    pub block: u32,
    /// Tests of loops and calls of methods so far in this call.
    pub turns: u32,
    /// How many of the lowest frames stood when control came and weren't popped since.
    pub base: u8,
    /// The frames above those, the lowest first.
    pub frames: Items<Frame>,
    /// By frame and then by slot, each at most once.
    pub slots: Items<SlotAt>,
    pub updates: Updates,
}

fn put_frames(out: &mut Vec<u8>, frames: &[Frame]) -> Result<(), AllocError>
    requires { length frames.now < 2 ^ 8 }
    ensures bytes { OnOk result (out.new.items ≡ out.old.items ++ frames_bytes frames.now) }
    ensures in_range { OnOk result (AllByRecursion FrameIsInRange frames.now) }
{
    out.push(frames.len() as u8)?;
    put_items(out, frames)
}

pub(crate) fn put_transfer(out: &mut Vec<u8>, transfer: &Transfer) -> Result<(), AllocError>
    requires { TransferHasSpelling transfer.now }
    ensures bytes { OnOk result (out.new.items ≡ out.old.items ++ transfer_bytes transfer.now) }
    ensures in_range { OnOk result (TransferIsInRange transfer.now) }
{
    put_u32(out, transfer.block)?;
    put_u32(out, transfer.turns)?;
    out.push(transfer.base)?;
    put_frames(out, transfer.frames.as_slice())?;
    put_counted(out, transfer.slots.as_slice())?;
    put_updates(out, &transfer.updates)
}

#[tactic(auto, unfolding(crate::specs::Reading::frames_at))]
fn take_frames(alloc: Global, from: &[u8]) -> Result<(Items<Frame>, &[u8]), Unread>
    ensures { Gives (λ x. (x.0, x.1.now)) result (frames_at from.now) }
{
    let (count, rest) = take_u8(from)?;
    take_items::<Frame>(alloc, u32::from(count), rest)
}

#[tactic(auto, unfolding(crate::specs::Reading::transfer_at))]
pub(crate) fn take_transfer(alloc: Global, from: &[u8]) -> Result<(Transfer, &[u8]), Unread>
    ensures { Gives (λ x. (x.0, x.1.now)) result (transfer_at from.now) }
{
    let (block, rest) = take_u32(from)?;
    let (turns, rest) = take_u32(rest)?;
    let (base, rest) = take_u8(rest)?;
    let (frames, rest) = take_frames(alloc, rest)?;
    let (slots, rest) = take_ordered::<SlotAt>(alloc, rest)?;
    let (updates, rest) = take_updates(alloc, rest)?;
    let transfer = Transfer {
        block,
        turns,
        base,
        frames,
        slots,
        updates,
    };
    Ok((transfer, rest))
}
