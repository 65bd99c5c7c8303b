//! What nodes add to the load of the server that they are at.
ghost use Rattle.std.specs.Prelude.{◌≡◌, ◌≤◌, ◌<◌, ◌*◌, ◌^◌, map, length, IfOk};
ghost use Rattle.px_graph.specs.Loads.{total};
ghost use Rattle.px_partition.specs.Runs.{AreFew};
ghost use Rattle.px_partition.specs.Graphs.{load_of};

use crate::runs::told_by;
use px_code::Counts;
use px_normal::{Node, NodeKind};
use sqlite_items::Items;
use std::alloc::{AllocError, Global};

fn load_of(counts: &Counts, node: &Node) -> u64
    requires few { AreFew counts.now }
    ensures same { result ≡ load_of counts.now node.now }
    ensures few { result < 2 ^ 32 }
{
    match node.kind {
        NodeKind::Normal => told_by(counts, node.counter),
        _ => 0,
    }
}

/// Of each node, by number from 1.
pub fn loads(alloc: Global, counts: &Counts, nodes: &[Node]) -> Result<Items<u64>, AllocError>
    requires few { AreFew counts.now }
    ensures same { IfOk result (λ loads. loads ≡ map (load_of counts.now) nodes.now) }
    ensures sum { IfOk result (λ loads. total loads ≤ length nodes.now * 2 ^ 32) }
{
    let mut loads = Items::new(alloc);
    for node in nodes {
        loads.push(load_of(counts, node))?;
    }
    Ok(loads)
}
