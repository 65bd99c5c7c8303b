//! Edges in order.
ghost use Rattle.std.specs.Prelude.{◌≡◌, [], IfOk};
ghost use Rattle.std.specs.List.Sorted.{IsStrictlySortedBy};
ghost use Rattle.px_flow_points.specs.Order.{put_all};
ghost use Rattle.px_depend.specs.Order.{edge_cmp};

use crate::edge::Edge;
use std::alloc::{AllocError, Global};
use std::collections::BTreeSet;
use std::marker::Model;

/// Edges in rising order, each once.
#[derive(Drop)]
pub struct Edges {
    list: Vec<Edge>,
}

impl Model for Edges {
    ghost use Rattle.std.specs.Prelude.{List};
    ghost use Rattle.px_depend.specs.declared.edge.Edge.{Edge};

    ghost Value = { List Edge };

    ghost view = { λ edges. edges.list.items };
}

fn set_of(alloc: Global, edges: &[Edge]) -> Result<BTreeSet<Edge>, AllocError>
    ensures { IfOk result (λ set. set.keys ≡ put_all edge_cmp [] edges.now) }
{
    let mut set = BTreeSet::new(alloc);
    for edge in edges {
        set.insert(*edge)?;
    }
    Ok(set)
}

fn list_of(alloc: Global, set: BTreeSet<Edge>) -> Result<Vec<Edge>, AllocError>
    ensures same { IfOk result (λ list. list.items ≡ set.keys) }
    ensures rise { IfOk result (λ list. IsStrictlySortedBy edge_cmp list.items) }
{
    let mut list = Vec::new(alloc);
    for edge in set {
        list.push(edge)?;
    }
    Ok(list)
}

impl Edges {
    pub fn new(alloc: Global, edges: &[Edge]) -> Result<Edges, AllocError>
        ensures same { IfOk result (λ all. all ≡ put_all edge_cmp [] edges.now) }
        ensures rise { IfOk result (λ all. IsStrictlySortedBy edge_cmp all) }
    {
        let set = set_of(alloc, edges)?;
        let list = list_of(alloc, set)?;
        Ok(Edges { list })
    }

    pub fn as_slice(&self) -> &[Edge]
        ensures { result.now ≡ self.now }
    {
        self.list.as_slice()
    }
}
