//! The graph, and the two sums over it.
ghost use Rattle.std.specs.Prelude.{◌≡◌, ◌<◌, ◌^◌, ◌-◌, length};
ghost use Rattle.px_graph.specs.Costs.{cost as cost_in, whole};
ghost use Rattle.px_graph.specs.Loads.{load as load_in, total};

use crate::costs::cost_of;
use crate::edge::Edge;
use crate::loads::load_of;
use px_code::Placement;
use sqlite_items::Items;

/// The nodes that stand in a method, by number: its own, those of its statements, and those of the sites in it. A move takes the free ones.
#[derive(Drop)]
pub struct Group {
    pub nodes: Items<u32>,
}

#[derive(Drop)]
pub struct Graph {
    pub edges: Items<Edge>,
    /// How often each node ran, by number from 1; 0 where it is no statement.
    pub counts: Items<u64>,
    /// In the order of the methods.
    pub methods: Items<Group>,
}

impl Graph {
    /// The sum of the weights of the edges whose ends are at two sides.
    pub fn cost(&self, placement: &Placement) -> u128
        requires { whole self.now.edges < 2 ^ 127 }
        ensures { result ≡ cost_in self.now placement.now.sides }
    {
        cost_of(self.edges.as_slice(), placement.sides.as_slice())
    }

    /// The sum of the counts of the nodes at DB.
    pub fn load(&self, placement: &Placement) -> u64
        requires counted { length self.now.counts < 2 ^ 32 - 1 }
        requires fits { total self.now.counts < 2 ^ 64 }
        ensures { result ≡ load_in self.now placement.now.sides }
    {
        load_of(self.counts.as_slice(), placement.sides.as_slice())
    }
}
