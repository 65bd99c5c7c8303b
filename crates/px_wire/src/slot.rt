//! A value in a slot of a frame.
ghost use Rattle.std.specs.Prelude.{◌≡◌, ◌++◌, OnOk};
ghost use Rattle.px_wire.specs.Spelling.{slot_bytes};
ghost use Rattle.px_wire.specs.Fitting.{HasShortText, SlotIsInRange};
ghost use Rattle.px_wire.specs.Order.{slot_place};
ghost use Rattle.px_wire.specs.Reading.{slot_at};

use crate::number::{put_u16, take_u16};
use crate::order::Placed;
use crate::part::Part;
use crate::unread::Unread;
use crate::value::{put_value, take_value};
use px_value::Value;
use std::alloc::{AllocError, Global};

#[derive(Debug, Drop)]
pub struct SlotAt {
    /// The frame's place in the stack, from 0.
    pub frame: u16,
    pub slot: u16,
    pub value: Value,
}

impl Part for SlotAt {
    ghost bytes_of = { slot_bytes };

    ghost part_at = { slot_at };

    ghost has_spelling = { λ s. HasShortText s.value };

    ghost is_in_range = { SlotIsInRange };

    fn put(&self, out: &mut Vec<u8>) -> Result<(), AllocError> {
        put_u16(out, self.frame)?;
        put_u16(out, self.slot)?;
        put_value(out, &self.value)
    }

    #[tactic(auto, unfolding(crate::specs::Reading::slot_at))]
    fn take<'a>(alloc: Global, from: &'a [u8]) -> Result<(Self, &'a [u8]), Unread> {
        let (frame, rest) = take_u16(from)?;
        let (slot, rest) = take_u16(rest)?;
        let (value, rest) = take_value(alloc, rest)?;
        Ok((SlotAt { frame, slot, value }, rest))
    }
}

impl Placed for SlotAt {
    ghost place_of = { slot_place };

    fn place(&self) -> (u32, u32) {
        (u32::from(self.frame), u32::from(self.slot))
    }
}
