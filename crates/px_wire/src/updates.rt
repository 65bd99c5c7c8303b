//! What changed in a heap: new objects and written cells.
ghost use Rattle.std.specs.Prelude.{◌≡◌, ◌++◌, OnOk};
ghost use Rattle.px_wire.specs.Spelling.{updates_bytes};
ghost use Rattle.px_wire.specs.Fitting.{UpdatesHaveSpelling, UpdatesAreInRange};
ghost use Rattle.px_wire.specs.Reading.{Gives, updates_at};

use crate::cell::CellAt;
use crate::order::take_ordered;
use crate::part::{put_counted, take_counted};
use crate::unread::Unread;
use px_value::Header;
use sqlite_items::Items;
use std::alloc::{AllocError, Global};

#[derive(Debug, Drop)]
pub struct Updates {
    /// Of the new objects, in order of allocation.
    pub headers: Items<Header>,
    /// By object and then by index, each at most once.
    pub cells: Items<CellAt>,
}

pub(crate) fn put_updates(out: &mut Vec<u8>, updates: &Updates) -> Result<(), AllocError>
    requires { UpdatesHaveSpelling updates.now }
    ensures bytes { OnOk result (out.new.items ≡ out.old.items ++ updates_bytes updates.now) }
    ensures in_range { OnOk result (UpdatesAreInRange updates.now) }
{
    put_counted(out, updates.headers.as_slice())?;
    put_counted(out, updates.cells.as_slice())
}

#[tactic(auto, unfolding(crate::specs::Reading::updates_at))]
pub(crate) fn take_updates(alloc: Global, from: &[u8]) -> Result<(Updates, &[u8]), Unread>
    ensures { Gives (λ x. (x.0, x.1.now)) result (updates_at from.now) }
{
    let (headers, rest) = take_counted::<Header>(alloc, from)?;
    let (cells, rest) = take_ordered::<CellAt>(alloc, rest)?;
    Ok((Updates { headers, cells }, rest))
}
