//! The edges at each node.
ghost use Rattle.std.specs.Prelude.{◌≡◌, ◌<◌, ◌^◌, [], length, replicate, unwrap_or, OnOk, IfOk};
ghost use Rattle.px_code.specs.Places.{numbered};
ghost use Rattle.px_graph.specs.Costs.{whole as whole_of_edges};
ghost use Rattle.px_graph.specs.Problem.{IsProblem};
ghost use Rattle.px_choose.specs.Gains.{number_of as number_of_end, pushed, with_edge, with_edges};
ghost use Rattle.px_choose.specs.Kept.{AreLists, AreWholes, IsLinked};

use crate::edge_list::EdgeList;
use px_code::Side;
use px_graph::{Edge, End, Graph};
use std::alloc::{AllocError, Global};

/// By node: the edges between it and another end, and what they weigh together.
#[derive(Drop)]
pub struct Links {
    pub lists: Vec<EdgeList>,
    pub wholes: Vec<u128>,
}

/// The number of the node at an end; 0 at the ends that are fixed.
pub fn number_of(end: End) -> u32
    ensures { result ≡ number_of_end end }
{
    match end {
        End::App => 0,
        End::Db => 0,
        End::Node(node) => node,
    }
}

fn no_lists(alloc: Global, count: usize) -> Result<Vec<EdgeList>, AllocError>
    ensures { IfOk result (λ lists. lists.items ≡ replicate count []) }
{
    let mut lists = Vec::new(alloc);
    for _ in 0..count {
        lists.push(EdgeList::new(alloc))?;
    }
    Ok(lists)
}

fn push_at(lists: &mut Vec<EdgeList>, node: u32, edge: Edge) -> Result<(), AllocError>
    ensures { OnOk result (lists.new.items ≡ pushed node edge lists.old.items) }
{
    if node == 0 {
        return Ok(());
    }
    let place = node as usize - 1;
    if place >= lists.len() {
        return Ok(());
    }
    lists[place].push(edge)
}

fn add(lists: &mut Vec<EdgeList>, edge: Edge) -> Result<(), AllocError>
    ensures { OnOk result (lists.new.items ≡ with_edge edge lists.old.items) }
{
    let from = number_of(edge.from);
    if from == edge.to {
        return Ok(());
    }
    push_at(lists, edge.to, edge)?;
    push_at(lists, from, edge)
}

fn add_all(lists: &mut Vec<EdgeList>, edges: &[Edge]) -> Result<(), AllocError>
    ensures { OnOk result (lists.new.items ≡ with_edges edges.now lists.old.items) }
{
    for edge in edges {
        add(lists, *edge)?;
    }
    Ok(())
}

fn whole(edges: &[Edge]) -> u128
    requires { whole_of_edges edges.now < 2 ^ 128 }
    ensures { result ≡ whole_of_edges edges.now }
{
    let mut sum: u128 = 0;
    for edge in edges {
        sum += u128::from(edge.weight);
    }
    sum
}

impl Links {
    /// The edges at a node, by its number from 1.
    pub fn at(&self, node: u32) -> &[Edge]
        ensures { result.now ≡ unwrap_or (numbered self.now.lists.items node) [] }
    {
        if node == 0 {
            return &[];
        }
        match self.lists.get(node as usize - 1) {
            Some(edges) => edges.as_slice(),
            None => &[],
        }
    }
}

fn wholes(alloc: Global, edges: &[Edge], lists: &[EdgeList]) -> Result<Vec<u128>, AllocError>
    requires weights { whole_of_edges edges.now < 2 ^ 127 }
    requires lists { AreLists edges.now (length lists.now) lists.now }
    ensures { IfOk result (λ wholes. AreWholes edges.now (length lists.now) wholes.items) }
{
    let mut sums = Vec::new(alloc);
    for list in lists {
        sums.push(whole(list.as_slice()))?;
    }
    Ok(sums)
}

/// The edges at each node, and what they weigh together, by one pass over the graph.
pub fn link(alloc: Global, graph: &Graph, pins: &[Option<Side>]) -> Result<Links, AllocError>
    requires { IsProblem graph.now pins.now }
    ensures { IfOk result (λ links. IsLinked graph.now pins.now links) }
{
    let mut lists = no_lists(alloc, pins.len())?;
    add_all(&mut lists, graph.edges.as_slice())?;
    let sums = wholes(alloc, graph.edges.as_slice(), lists.as_slice())?;
    Ok(Links {
        lists,
        wholes: sums,
    })
}
