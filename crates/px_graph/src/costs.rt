//! What edges cost.
ghost use Rattle.std.specs.Prelude.{◌≡◌, ◌<◌, ◌^◌};
ghost use Rattle.px_graph.specs.Costs.{side_of_end, edge_cost as cost_of_edge, cost_of as cost_of_edges};

use crate::edge::{Edge, End};
use crate::sides::{same_side, side_at};
use px_code::Side;

pub fn end_side(sides: &[Side], end: End) -> Side
    ensures { result ≡ side_of_end sides.now end }
{
    match end {
        End::App => Side::App,
        End::Db => Side::Db,
        End::Node(node) => side_at(sides, node),
    }
}

/// The weight of an edge where its ends are at two sides, else 0.
pub fn edge_cost(edge: &Edge, sides: &[Side]) -> u128
    ensures { result ≡ cost_of_edge sides.now edge.now }
{
    if same_side(end_side(sides, edge.from), side_at(sides, edge.to)) {
        0
    } else {
        u128::from(edge.weight)
    }
}

/// What some edges cost together, where nodes are at these sides.
pub fn cost_of(edges: &[Edge], sides: &[Side]) -> u128
    requires { cost_of_edges edges.now sides.now < 2 ^ 128 }
    ensures { result ≡ cost_of_edges edges.now sides.now }
{
    let mut sum: u128 = 0;
    for edge in edges {
        sum += edge_cost(edge, sides);
    }
    sum
}
