//! Lists whose items stand in strictly increasing order of their places.
ghost use Rattle.std.specs.Prelude.{◌≡◌, ℕ, map};
ghost use Rattle.px_wire.specs.Order.{is_before, are_in_order};
ghost use Rattle.px_wire.specs.Reading.{Gives, ordered_at};

use crate::part::{Part, take_counted};
use crate::unread::Unread;
use sqlite_items::Items;
use std::alloc::Global;

/// A part with a place: of a slot its frame and slot, of a cell its object and index.
pub(crate) trait Placed: Part {
    ghost place_of: { Self → ℕ × ℕ };

    fn place(&self) -> (u32, u32)
        ensures { result ≡ place_of self.now };
}

fn is_before(a: (u32, u32), b: (u32, u32)) -> bool
    ensures { result ≡ is_before a b }
{
    a.0 < b.0 || (a.0 == b.0 && a.1 < b.1)
}

fn are_in_order<P: Placed>(items: &[P]) -> bool
    ensures { result ≡ are_in_order (map P.place_of items.now) }
{
    let mut rest = items;
    while let [a, more @ ..] = rest {
        if let [b, ..] = more {
            if !is_before(a.place(), b.place()) {
                return false;
            }
        }
        rest = more;
    }
    true
}

/// The count in four bytes, and the items in order.
#[tactic(auto, unfolding(crate::specs::Reading::ordered_at))]
pub(crate) fn take_ordered<P: Placed>(
    alloc: Global,
    from: &[u8],
) -> Result<(Items<P>, &[u8]), Unread>
    ensures { Gives (λ x. (x.0, x.1.now)) result (ordered_at P.place_of P.part_at from.now) }
{
    let (items, rest) = take_counted::<P>(alloc, from)?;
    if !are_in_order(items.as_slice()) {
        return Err(Unread::NoMessage);
    }
    Ok((items, rest))
}
