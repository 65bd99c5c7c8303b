//! Flips of single nodes.
ghost use Rattle.std.specs.Prelude.{◌≡◌, MatchOption, Some, None};
ghost use Rattle.px_graph.specs.Problem.{IsProblem};
ghost use Rattle.px_choose.specs.Placements.{flipped};
ghost use Rattle.px_choose.specs.Choices.{is_better as is_better_than, first_flip};
ghost use Rattle.px_choose.specs.Kept.{IsLinked, IsKept};

use crate::links::Links;
use crate::numbers::sum_at;
use crate::pins::is_free;
use crate::state::State;
use crate::sums::load_after;
use px_code::Side;
use px_graph::Graph;

/// Whether the flip of a node fits and is cheaper. It looks at the sums of that node alone.
pub fn is_better_flip(
    graph: &Graph,
    links: &Links,
    budget: u64,
    pins: &[Option<Side>],
    state: &State,
    node: u32,
) -> bool
    requires problem { IsProblem graph.now pins.now }
    requires linked { IsLinked graph.now pins.now links.now }
    requires kept { IsKept graph.now pins.now state.now }
    ensures { result ≡ is_better_than graph.now budget pins.now state.now.sides.items (flipped pins.now node state.now.sides.items) }
{
    if !is_free(pins, node) {
        return false;
    }
    let cut = sum_at(state.cuts.as_slice(), node);
    let whole = sum_at(links.wholes.as_slice(), node);
    whole - cut < cut && load_after(graph, pins, state.sides.as_slice(), state.load, node) <= budget
}

/// The first node whose flip is better.
pub fn better_flip(
    graph: &Graph,
    links: &Links,
    budget: u64,
    pins: &[Option<Side>],
    state: &State,
) -> Option<u32>
    requires problem { IsProblem graph.now pins.now }
    requires linked { IsLinked graph.now pins.now links.now }
    requires kept { IsKept graph.now pins.now state.now }
    ensures { MatchOption result (first_flip graph.now budget pins.now state.now.sides.items 1 pins.now ≡ None) (λ node. first_flip graph.now budget pins.now state.now.sides.items 1 pins.now ≡ Some (flipped pins.now node state.now.sides.items)) }
{
    let mut node: u32 = 1;
    for _pin in pins {
        if is_better_flip(graph, links, budget, pins, state, node) {
            return Some(node);
        }
        node += 1;
    }
    None
}
