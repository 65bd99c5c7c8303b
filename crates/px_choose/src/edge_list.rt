//! A list of edges that grows.
ghost use Rattle.std.specs.Prelude.{◌≡◌, [], ◌∷◌, ◌++◌, OnOk};

use px_graph::Edge;
use std::alloc::{AllocError, Global};
use std::marker::Model;

/// Edges in the order of the graph.
#[derive(Drop)]
pub struct EdgeList {
    items: Vec<Edge>,
}

impl Model for EdgeList {
    ghost use Rattle.std.specs.Prelude.{List};
    ghost use Rattle.px_graph.specs.declared.edge.Edge.{Edge};

    ghost Value = { List Edge };

    ghost view = { λ edges. edges.items.items };
}

impl EdgeList {
    pub fn new(alloc: Global) -> EdgeList
        ensures { result ≡ [] }
    {
        EdgeList {
            items: Vec::new(alloc),
        }
    }

    pub fn as_slice(&self) -> &[Edge]
        ensures { result.now ≡ self.now }
    {
        self.items.as_slice()
    }

    pub fn push(&mut self, edge: Edge) -> Result<(), AllocError>
        ensures { OnOk result (self.new ≡ self.old ++ edge ∷ []) }
    {
        self.items.push(edge)?;
        Ok(())
    }
}
