//! Grants in order of their items, so that those of one item are found by halving.
ghost use Rattle.std.specs.Prelude.{◌≡◌, ◌≤◌, ◌<◌, length};
ghost use Rattle.std.specs.List.Sorted.{IsPartitionPoint};
ghost use Rattle.px_locks.specs.Spots.{bits_of, spot_of_item, spot_of, beside, IsInOrder};

use crate::want::{Grant, Item};

fn bits(key: Option<i64>) -> u64
    ensures { result ≡ bits_of key }
{
    match key {
        Some(key) => key.cast_unsigned(),
        None => 0,
    }
}

/// The number that orders items. A table and one of its keys share a number; no others do.
pub fn spot(item: Item) -> u128
    ensures { result ≡ spot_of_item item }
{
    u128::from(item.table) * 18_446_744_073_709_551_616 + u128::from(bits(item.key))
}

/// How many grants stand below a number.
pub fn below(grants: &[Grant], spot: u128) -> usize
    requires sorted { IsInOrder grants.now }
    ensures bound { result ≤ length grants.now }
    ensures point { IsPartitionPoint (λ g. spot_of g < spot) (λ g. spot ≤ spot_of g) grants.now result }
{
    grants.partition_point(|grant| crate::spot::spot(grant.want.item) < spot)
}

/// The grants of an item, with those that share its number.
pub fn at(grants: &[Grant], item: Item) -> &[Grant]
    requires sorted { IsInOrder grants.now }
    ensures { result.now ≡ beside item grants.now }
{
    let spot = spot(item);
    let from = below(grants, spot);
    let end = below(grants, spot + 1);
    &grants[from..end]
}
