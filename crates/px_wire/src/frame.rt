//! A frame of the stack of calls.
ghost use Rattle.std.specs.Prelude.{◌≡◌, ◌++◌, OnOk, ⊤};
ghost use Rattle.px_wire.specs.Spelling.{frame_bytes};
ghost use Rattle.px_wire.specs.Fitting.{FrameIsInRange};
ghost use Rattle.px_wire.specs.Reading.{frame_at};

use crate::number::{put_u16, put_u32, take_u16, take_u32};
use crate::part::Part;
use crate::unread::Unread;
use std::alloc::{AllocError, Global};

#[derive(Clone, Copy, Debug, PartialEq, Eq)]
pub struct Frame {
    pub method: u16,
    /// The number of the block that ends in this frame's call, or 0 where none does.
    pub back: u32,
}

impl Part for Frame {
    ghost bytes_of = { frame_bytes };

    ghost part_at = { frame_at };

    ghost has_spelling = { λ _. ⊤ };

    ghost is_in_range = { FrameIsInRange };

    fn put(&self, out: &mut Vec<u8>) -> Result<(), AllocError> {
        put_u16(out, self.method)?;
        put_u32(out, self.back)
    }

    #[tactic(auto, unfolding(crate::specs::Reading::frame_at))]
    fn take<'a>(_: Global, from: &'a [u8]) -> Result<(Self, &'a [u8]), Unread> {
        let (method, rest) = take_u16(from)?;
        let (back, rest) = take_u32(rest)?;
        Ok((Frame { method, back }, rest))
    }
}
