//! The two sums that the rule looks at: the cost, and the load of the free nodes at DB.
ghost use Rattle.std.specs.Prelude.{◌≡◌, ◌≤◌, ◌<◌, ◌^◌, List, length, true};
ghost use Rattle.px_code.specs.declared.side.Side.{Side as SideOf};
ghost use Rattle.px_graph.specs.Costs.{cost as cost_in};
ghost use Rattle.px_choose.specs.Placements.{is_free as is_node_free, flipped};
ghost use Rattle.px_choose.specs.Sums.{free_load_at as free_load_of_node, free_load as free_load_in, IsSmall};

use crate::numbers::count_of;
use crate::pins::is_free;
use px_code::Side;
use px_graph::{Graph, cost_of, is_db, side_at};

pub fn cost(graph: &Graph, sides: &[Side]) -> u128
    requires { IsSmall graph.now }
    ensures { result ≡ cost_in graph.now sides.now }
{
    cost_of(graph.edges.as_slice(), sides)
}

fn free_load_at(pins: &[Option<Side>], sides: &[Side], node: u32, count: u64) -> u64
    ensures { result ≡ free_load_of_node pins.now sides.now node count }
{
    if is_free(pins, node) && is_db(side_at(sides, node)) {
        count
    } else {
        0
    }
}

/// The sum of the counts of the free nodes at DB.
pub fn free_load(graph: &Graph, pins: &[Option<Side>], sides: &[Side]) -> u64
    requires { IsSmall graph.now }
    ensures { result ≡ free_load_in graph.now pins.now sides.now }
{
    let mut sum: u64 = 0;
    let mut node: u32 = 1;
    for count in graph.counts.as_slice() {
        sum += free_load_at(pins, sides, node, *count);
        node += 1;
    }
    sum
}

/// The load after the flip of a free node.
pub fn load_after(graph: &Graph, pins: &[Option<Side>], sides: &[Side], load: u64, node: u32) -> u64
    requires counts { (p : List SideOf) → free_load_in graph.now pins.now p < 2 ^ 64 }
    requires free { is_node_free pins.now node ≡ true }
    requires within { node ≤ length sides.now }
    requires load { load ≡ free_load_in graph.now pins.now sides.now }
    ensures { result ≡ free_load_in graph.now pins.now (flipped pins.now node sides.now) }
{
    let count = count_of(graph.counts.as_slice(), node);
    if is_db(side_at(sides, node)) {
        load - count
    } else {
        load + count
    }
}
