//! Lists by the numbers of nodes, from 1. What isn't there counts as 0, and isn't set.
ghost use Rattle.std.specs.Prelude.{◌≡◌, unwrap_or};
ghost use Rattle.px_code.specs.Places.{numbered};
ghost use Rattle.px_choose.specs.Placements.{set_number};

use px_code::Side;

pub fn sum_at(sums: &[u128], node: u32) -> u128
    ensures { result ≡ unwrap_or (numbered sums.now node) 0 }
{
    if node == 0 {
        return 0;
    }
    match sums.get(node as usize - 1) {
        Some(sum) => *sum,
        None => 0,
    }
}

pub fn count_of(counts: &[u64], node: u32) -> u64
    ensures { result ≡ unwrap_or (numbered counts.now node) 0 }
{
    if node == 0 {
        return 0;
    }
    match counts.get(node as usize - 1) {
        Some(count) => *count,
        None => 0,
    }
}

pub fn set_sum(sums: &mut Vec<u128>, node: u32, sum: u128)
    ensures { sums.new.items ≡ set_number sums.old.items node sum }
{
    if node == 0 {
        return;
    }
    let place = node as usize - 1;
    if place < sums.len() {
        sums[place] = sum;
    }
}

pub fn set_side(sides: &mut Vec<Side>, node: u32, side: Side)
    ensures { sides.new.items ≡ set_number sides.old.items node side }
{
    if node == 0 {
        return;
    }
    let place = node as usize - 1;
    if place < sides.len() {
        sides[place] = side;
    }
}
