//! All edges of code.
ghost use Rattle.std.specs.Prelude.{◌<◌, ◌^◌, ◌-◌, length, IfOk};
ghost use Rattle.px_flow_points.specs.ByNode.{AreTouched};
ghost use Rattle.px_depend.specs.Order.{AreEdges};

use crate::edges::Edges;
use crate::lines::lines_of;
use crate::local::local_edges;
use crate::objects::object_edges;
use crate::slots::slot_edges;
use px_flow_points::Points;
use px_normal::Code;
use std::alloc::{AllocError, Global};

/// Exactly the edges of code.
pub fn depend(alloc: Global, code: &Code, points: &Points) -> Result<Edges, AllocError>
    requires few { length code.now.methods < 2 ^ 16 - 1 }
    requires touched { AreTouched code.now points.now }
    ensures { IfOk result (λ edges. AreEdges code.now edges) }
{
    let mut list = Vec::new(alloc);
    let lines = lines_of(alloc, code.methods.as_slice())?;
    local_edges(alloc, code, lines.as_slice(), &mut list)?;
    slot_edges(alloc, code.methods.as_slice(), &mut list)?;
    object_edges(
        alloc,
        code,
        points.all_writes(),
        points.all_reads(),
        &mut list,
    )?;
    let edges = Edges::new(alloc, list.as_slice())?;
    Ok(edges)
}
