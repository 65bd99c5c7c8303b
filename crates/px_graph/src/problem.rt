//! Whether all sums of a graph fit their types.
ghost use Rattle.std.specs.Prelude.{◌≡◌, ◌≤◌, ◌<◌, ◌^◌, true, false};
ghost use Rattle.px_graph.specs.Costs.{whole};
ghost use Rattle.px_graph.specs.Loads.{total};
ghost use Rattle.px_graph.specs.Problem.{IsProblem};

use crate::edge::Edge;
use crate::graph::Graph;
use px_code::Pins;

fn weights_fit(edges: &[Edge]) -> bool
    ensures fit { result ≡ true → whole edges.now < 2 ^ 127 }
    ensures over { result ≡ false → 2 ^ 127 ≤ whole edges.now }
{
    let mut sum: u128 = 0;
    for edge in edges {
        sum += u128::from(edge.weight);
        if sum >= 1 << 127 {
            return false;
        }
    }
    true
}

fn counts_fit(counts: &[u64]) -> bool
    ensures fit { result ≡ true → total counts.now < 2 ^ 64 }
    ensures over { result ≡ false → 2 ^ 64 ≤ total counts.now }
{
    let mut sum: u128 = 0;
    for count in counts {
        sum += u128::from(*count);
        if sum >= 1 << 64 {
            return false;
        }
    }
    true
}

/// Whether the sums over a graph, and the numbers of its nodes, fit their types with what the chooser needs beside them.
pub fn is_problem(graph: &Graph, pins: &Pins) -> bool
    ensures right { result ≡ true → IsProblem graph.now pins.now.sides }
    ensures wrong { IsProblem graph.now pins.now.sides → result ≡ true }
{
    let most: usize = (1 << 32) - 1;
    let counts = graph.counts.as_slice();
    pins.sides.len() < most
        && counts.len() < most
        && counts_fit(counts)
        && weights_fit(graph.edges.as_slice())
}
