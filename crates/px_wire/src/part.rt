//! Parts of which a message has a list.
ghost use Rattle.std.specs.Prelude.{◌≡◌, ◌<◌, ◌^◌, ◌++◌, ℕ, List, Option, OnOk, length};
ghost use Rattle.std.specs.List.{flat_map, AllByRecursion};
ghost use Rattle.px_wire.specs.Spelling.{counted_bytes};
ghost use Rattle.px_wire.specs.Reading.{Gives, items_at, counted_at};

use crate::number::{put_u32, take_u32};
use crate::unread::Unread;
use sqlite_items::Items;
use std::alloc::{AllocError, Global};

/// A part with a spelling and a reader of its own.
pub(crate) trait Part: Drop {
    /// Its bytes.
    ghost bytes_of: { Self → List ℕ };

    /// What stands at the front of bytes.
    ghost part_at: { List ℕ → Option (Self × List ℕ) };

    ghost has_spelling: { Self → Type 0 };

    ghost is_in_range: { Self → Type 0 };

    fn put(&self, out: &mut Vec<u8>) -> Result<(), AllocError>
        requires { has_spelling self.now }
        ensures bytes { OnOk result (out.new.items ≡ out.old.items ++ bytes_of self.now) }
        ensures in_range { OnOk result (is_in_range self.now) };

    fn take<'a>(alloc: Global, from: &'a [u8]) -> Result<(Self, &'a [u8]), Unread>
        ensures { Gives (λ x. (x.0, x.1.now)) result (part_at from.now) };
}

pub(crate) fn put_items<P: Part>(out: &mut Vec<u8>, items: &[P]) -> Result<(), AllocError>
    requires { AllByRecursion P.has_spelling items.now }
    ensures bytes { OnOk result (out.new.items ≡ out.old.items ++ flat_map P.bytes_of items.now) }
    ensures in_range { OnOk result (AllByRecursion P.is_in_range items.now) }
{
    for item in items {
        item.put(out)?;
    }
    Ok(())
}

/// The count in four bytes, and the items.
pub(crate) fn put_counted<P: Part>(out: &mut Vec<u8>, items: &[P]) -> Result<(), AllocError>
    requires counted { length items.now < 2 ^ 32 }
    requires spelled { AllByRecursion P.has_spelling items.now }
    ensures bytes { OnOk result (out.new.items ≡ out.old.items ++ counted_bytes P.bytes_of items.now) }
    ensures in_range { OnOk result (AllByRecursion P.is_in_range items.now) }
{
    put_u32(out, items.len() as u32)?;
    put_items(out, items)
}

// No room is taken for a count: the list grows as items are read.
pub(crate) fn take_items<P: Part>(
    alloc: Global,
    count: u32,
    from: &[u8],
) -> Result<(Items<P>, &[u8]), Unread>
    ensures { Gives (λ x. (x.0, x.1.now)) result (items_at P.part_at count from.now) }
{
    let mut items = Items::new(alloc);
    let mut rest = from;
    for _ in 0..count {
        let (item, after) = P::take(alloc, rest)?;
        items.push(item)?;
        rest = after;
    }
    Ok((items, rest))
}

#[tactic(auto, unfolding(crate::specs::Reading::counted_at))]
pub(crate) fn take_counted<P: Part>(alloc: Global, from: &[u8]) -> Result<(Items<P>, &[u8]), Unread>
    ensures { Gives (λ x. (x.0, x.1.now)) result (counted_at P.part_at from.now) }
{
    let (count, rest) = take_u32(from)?;
    take_items(alloc, count, rest)
}
