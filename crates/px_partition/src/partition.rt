//! The graph.
ghost use Rattle.std.specs.Prelude.{◌≡◌, List, Option, length, IfOk};
ghost use Rattle.px_code.specs.declared.side.Side.{Side as SideOf};
ghost use Rattle.px_depend.specs.Order.{AreEdges};
ghost use Rattle.px_graph.specs.Problem.{IsProblem};
ghost use Rattle.px_partition.specs.Runs.{AreFew};
ghost use Rattle.px_partition.specs.Weights.{AreRates};
ghost use Rattle.px_partition.specs.Graphs.{IsGraph, graph_of};

use crate::edges::edges;
use crate::groups::groups;
use crate::loads::loads;
use crate::rates::Rates;
use px_code::Counts;
use px_depend::Edges;
use px_graph::Graph;
use px_normal::Code;
use std::alloc::{AllocError, Global};

/// The partition graph of code, by its dependences and a profile of it.
///
/// Its sums fit their types, so it may be asked about with pins of the code's nodes. Of 65,535 methods, or 4,294,967,295 nodes, none is made.
pub fn graph(
    alloc: Global,
    code: &Code,
    dependences: &Edges,
    counts: &Counts,
    rates: Rates,
) -> Result<Graph, AllocError>
    requires edges { AreEdges code.now dependences.now }
    requires few { AreFew counts.now }
    requires rates { AreRates rates }
    ensures graph { IfOk result (λ graph. IsGraph code.now counts.now rates graph) }
    ensures problem { IfOk result (λ graph. (pins : List (Option SideOf)) → length pins ≡ length code.now.nodes → IsProblem graph pins) }
{
    let nodes = code.nodes.as_slice();
    let methods = code.methods.as_slice();
    if methods.len() >= (1 << 16) - 1 || nodes.len() >= (1 << 32) - 1 {
        return Err(AllocError);
    }
    let edges = edges(alloc, code, counts, rates, dependences.as_slice())?;
    let counts = loads(alloc, counts, nodes)?;
    let methods = groups(alloc, nodes, methods)?;
    Ok(Graph {
        edges,
        counts,
        methods,
    })
}
