//! A placement with its present sums.
ghost use Rattle.std.specs.Prelude.{◌≡◌, ◌<◌, ◌^◌, length, IfOk};
ghost use Rattle.px_graph.specs.Costs.{whole};
ghost use Rattle.px_graph.specs.Problem.{IsProblem};
ghost use Rattle.px_choose.specs.Kept.{AreLists, AreCuts, IsLinked, IsKept};

use crate::edge_list::EdgeList;
use crate::links::Links;
use crate::sums::{cost, free_load};
use px_code::Side;
use px_graph::{Edge, Graph, cost_of};
use std::alloc::{AllocError, Global};

/// The sides of the nodes, what the edges at each node cost, the load of the free nodes, and the cost of all.
#[derive(Drop)]
pub struct State {
    pub sides: Vec<Side>,
    pub cuts: Vec<u128>,
    pub load: u64,
    pub cost: u128,
}

fn cuts(
    alloc: Global,
    edges: &[Edge],
    lists: &[EdgeList],
    sides: &[Side],
) -> Result<Vec<u128>, AllocError>
    requires weights { whole edges.now < 2 ^ 127 }
    requires lists { AreLists edges.now (length lists.now) lists.now }
    ensures { IfOk result (λ cuts. AreCuts edges.now (length lists.now) sides.now cuts.items) }
{
    let mut sums = Vec::new(alloc);
    for list in lists {
        sums.push(cost_of(list.as_slice(), sides))?;
    }
    Ok(sums)
}

/// A placement with its sums.
pub fn start(
    alloc: Global,
    graph: &Graph,
    links: &Links,
    pins: &[Option<Side>],
    sides: Vec<Side>,
) -> Result<State, AllocError>
    requires problem { IsProblem graph.now pins.now }
    requires linked { IsLinked graph.now pins.now links.now }
    requires size { length sides.items ≡ length pins.now }
    ensures kept { IfOk result (λ state. IsKept graph.now pins.now state) }
    ensures sides { IfOk result (λ state. state.sides.items ≡ sides.items) }
{
    let sums = cuts(
        alloc,
        graph.edges.as_slice(),
        links.lists.as_slice(),
        sides.as_slice(),
    )?;
    let load = free_load(graph, pins, sides.as_slice());
    let cost = cost(graph, sides.as_slice());
    Ok(State {
        sides,
        cuts: sums,
        load,
        cost,
    })
}
