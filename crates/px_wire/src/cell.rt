//! A value in a cell of an object.
ghost use Rattle.std.specs.Prelude.{◌≡◌, ◌++◌, OnOk};
ghost use Rattle.px_wire.specs.Spelling.{cell_bytes};
ghost use Rattle.px_wire.specs.Fitting.{HasShortText, CellIsInRange};
ghost use Rattle.px_wire.specs.Order.{cell_place};
ghost use Rattle.px_wire.specs.Reading.{cell_at};

use crate::number::{put_u32, take_u32};
use crate::order::Placed;
use crate::part::Part;
use crate::unread::Unread;
use crate::value::{put_value, take_value};
use px_value::Value;
use std::alloc::{AllocError, Global};

#[derive(Debug, Drop)]
pub struct CellAt {
    /// The object's place in its session's heap, from 0.
    pub object: u32,
    pub index: u32,
    pub value: Value,
}

impl Part for CellAt {
    ghost bytes_of = { cell_bytes };

    ghost part_at = { cell_at };

    ghost has_spelling = { λ c. HasShortText c.value };

    ghost is_in_range = { CellIsInRange };

    fn put(&self, out: &mut Vec<u8>) -> Result<(), AllocError> {
        put_u32(out, self.object)?;
        put_u32(out, self.index)?;
        put_value(out, &self.value)
    }

    #[tactic(auto, unfolding(crate::specs::Reading::cell_at))]
    fn take<'a>(alloc: Global, from: &'a [u8]) -> Result<(Self, &'a [u8]), Unread> {
        let (object, rest) = take_u32(from)?;
        let (index, rest) = take_u32(rest)?;
        let (value, rest) = take_value(alloc, rest)?;
        Ok((
            CellAt {
                object,
                index,
                value,
            },
            rest,
        ))
    }
}

impl Placed for CellAt {
    ghost place_of = { cell_place };

    fn place(&self) -> (u32, u32) {
        (self.object, self.index)
    }
}
