//! The flip of a node, with the present sums.
ghost use Rattle.std.specs.Prelude.{◌≡◌, ◌≤◌, ◌<◌, ◌^◌, ◌+◌, ◌-◌, ℕ, nat_eq, length, Some, true, false, if◌then◌else◌};
ghost use Rattle.px_code.specs.Places.{numbered, side_of, same_side as are_same};
ghost use Rattle.px_graph.specs.Costs.{side_of_end, cost_of, whole};
ghost use Rattle.px_graph.specs.Problem.{IsProblem};
ghost use Rattle.px_choose.specs.Placements.{flipped};
ghost use Rattle.px_choose.specs.Gains.{far_end as far_end_of, edges_at, turned, passed};
ghost use Rattle.px_choose.specs.Kept.{AreLists, AreCuts, IsLinked, IsKept};

use crate::links::{Links, number_of};
use crate::numbers::{set_side, set_sum, sum_at};
use crate::pins::is_free;
use crate::state::State;
use crate::sums::load_after;
use px_code::Side;
use px_graph::{Edge, Graph, end_side, other_side, same_side, side_at};

fn far_end(node: u32, edge: Edge) -> u32
    ensures { result ≡ far_end_of node edge }
{
    if edge.to == node {
        number_of(edge.from)
    } else {
        edge.to
    }
}

fn changed(sum: u128, same: bool, weight: u64) -> u128
    requires more { same ≡ true → sum + weight < 2 ^ 128 }
    requires less { same ≡ false → weight ≤ sum }
    ensures { result ≡ if same then sum + weight else sum - weight }
{
    if same {
        sum + u128::from(weight)
    } else {
        sum - u128::from(weight)
    }
}

// What the turn of a node does, by one of its edges, to the sum of the node at the other end.
fn pass(sides: &[Side], node: u32, edge: Edge, cuts: &mut Vec<u128>)
    requires more { (sum : ℕ) → numbered cuts.old.items (far_end_of node edge) ≡ Some sum → are_same (side_of_end sides.now edge.from) (side_of sides.now edge.to) ≡ true → sum + edge.weight < 2 ^ 128 }
    requires less { (sum : ℕ) → numbered cuts.old.items (far_end_of node edge) ≡ Some sum → are_same (side_of_end sides.now edge.from) (side_of sides.now edge.to) ≡ false → edge.weight ≤ sum }
    ensures { cuts.new.items ≡ passed sides.now node edge cuts.old.items }
{
    let far = far_end(node, edge);
    if far == 0 {
        return;
    }
    let place = far as usize - 1;
    if place < cuts.len() {
        let same = same_side(end_side(sides, edge.from), side_at(sides, edge.to));
        cuts[place] = changed(cuts[place], same, edge.weight);
    }
}

// Passes the turn of a node along its edges. The graph stands here for the clauses alone.
fn spread(_graph: &Graph, links: &Links, sides: &[Side], node: u32, cuts: &mut Vec<u128>)
    requires above { 0 < node }
    requires within { node ≤ length sides.now }
    requires weights { whole _graph.now.edges < 2 ^ 127 }
    requires lists { AreLists _graph.now.edges (length sides.now) links.now.lists.items }
    requires cuts { AreCuts _graph.now.edges (length sides.now) sides.now cuts.old.items }
    ensures size { length cuts.new.items ≡ length cuts.old.items }
    ensures here { numbered cuts.new.items node ≡ numbered cuts.old.items node }
    ensures near { (m c : ℕ) → nat_eq m node ≡ false → numbered cuts.new.items m ≡ Some c → c ≡ cost_of (edges_at m _graph.now.edges) (turned node sides.now) }
{
    let edges = links.at(node);
    for edge in edges {
        pass(sides, node, *edge, cuts);
    }
}

/// Flips a node, if it is free. It goes through the edges at that node alone.
pub fn turn(graph: &Graph, links: &Links, pins: &[Option<Side>], state: &mut State, node: u32)
    requires problem { IsProblem graph.now pins.now }
    requires linked { IsLinked graph.now pins.now links.now }
    requires kept { IsKept graph.now pins.now state.old }
    ensures kept { IsKept graph.now pins.now state.new }
    ensures sides { state.new.sides.items ≡ flipped pins.now node state.old.sides.items }
{
    if !is_free(pins, node) {
        return;
    }
    let load = load_after(graph, pins, state.sides.as_slice(), state.load, node);
    let side = other_side(side_at(state.sides.as_slice(), node));
    spread(graph, links, state.sides.as_slice(), node, &mut state.cuts);
    let cut = sum_at(state.cuts.as_slice(), node);
    let whole = sum_at(links.wholes.as_slice(), node);
    let after = whole - cut;
    set_sum(&mut state.cuts, node, after);
    set_side(&mut state.sides, node, side);
    state.load = load;
    state.cost = state.cost - cut + after;
}
