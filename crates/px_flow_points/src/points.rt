//! Points-to of code.
ghost use Rattle.std.specs.Prelude.{◌≡◌, ◌<◌, ◌-◌, ◌^◌, length, IfOk};
ghost use Rattle.px_flow_points.specs.There.{NumbersExist};
ghost use Rattle.px_flow_points.specs.Exact.{ArePoints, cell_set, slot_set, system_of};
ghost use Rattle.px_flow_points.specs.ByNode.{AreAll, AreTouched, methods_touches, pairs_at};

use crate::collect::constraints;
use crate::numbers::{Numbers, number_methods, number_sites};
use crate::pairs::{Pairs, Touch};
use crate::part::{Pair, Part};
use crate::sets::Sets;
use crate::touched::{Access, touches};
use px_constraints::{Cells, System, sets_of, solve};
use px_normal::Code;
use std::alloc::{AllocError, Global};
use std::marker::Model;

/// Where references may lead, and what statements may read and write.
#[derive(Drop)]
pub struct Points {
    sets: Sets,
    reads: Pairs,
    writes: Pairs,
}

impl Model for Points {
    ghost use Rattle.px_flow_points.specs.ByNode.{Found};

    ghost Value = { Found };

    ghost view = { λ points. record { sets = points.sets; reads = points.reads; writes = points.writes } };
}

impl Points {
    /// The sites of a slot of a method, in rising order.
    pub fn slot(&self, method: u16, slot: u16) -> &[u16]
        ensures { result.now ≡ slot_set self.now.sets method slot }
    {
        self.sets.slot(method, slot)
    }

    /// The sites of a part of the objects of a site, in rising order.
    pub fn cell(&self, site: u16, part: Part) -> &[u16]
        ensures { result.now ≡ cell_set self.now.sets site part }
    {
        self.sets.cell(site, part)
    }

    /// The pairs that the statement of a node may read, in rising order.
    pub fn reads(&self, node: u32) -> &[Pair]
        ensures { result.now ≡ pairs_at node self.now.reads }
    {
        self.reads.at(node)
    }

    /// The pairs that the statement of a node may write, in rising order.
    pub fn writes(&self, node: u32) -> &[Pair]
        ensures { result.now ≡ pairs_at node self.now.writes }
    {
        self.writes.at(node)
    }

    /// All that statements may read, by their nodes and then by pairs.
    pub fn all_reads(&self) -> &[Touch]
        ensures { result.now ≡ self.now.reads }
    {
        self.reads.as_slice()
    }

    /// All that statements may write, by their nodes and then by pairs.
    pub fn all_writes(&self) -> &[Touch]
        ensures { result.now ≡ self.now.writes }
    {
        self.writes.as_slice()
    }
}

// The constraints of code by variable.
fn system_of(
    alloc: Global,
    numbers: &Numbers,
    code: &Code,
    count: u32,
    cells: Vec<Cells>,
) -> Result<System, AllocError>
    requires { length code.now.methods < 2 ^ 16 - 1 }
    ensures { IfOk result (λ system. system ≡ system_of code.now numbers.now cells.items count) }
{
    let mut system = System::new(alloc, count, cells)?;
    let list = constraints(alloc, numbers, code.methods.as_slice())?;
    system.add_all(list.as_slice())?;
    Ok(system)
}

fn sets(alloc: Global, code: &Code) -> Result<Sets, AllocError>
    requires { NumbersExist code.now }
    ensures { IfOk result (λ sets. ArePoints code.now sets) }
{
    let methods = number_methods(alloc, code.methods.as_slice())?;
    let sites = number_sites(alloc, code, methods.behind)?;
    let system = system_of(alloc, &methods.of, code, sites.behind, sites.of)?;
    let facts = solve(alloc, &system)?;
    let sets = sets_of(alloc, &facts)?;
    Ok(Sets::new(methods.of, system.into_cells(), sets))
}

fn pairs(alloc: Global, code: &Code, sets: &Sets, access: Access) -> Result<Pairs, AllocError>
    requires { length code.now.methods < 2 ^ 16 - 1 }
    ensures { IfOk result (λ pairs. AreAll (methods_touches sets.now access 1 code.now.methods) pairs) }
{
    let list = touches(alloc, sets, access, code.methods.as_slice())?;
    Pairs::new(alloc, list.as_slice())
}

/// Exactly what the statements ask for.
pub fn points_to(alloc: Global, code: &Code) -> Result<Points, AllocError>
    requires { NumbersExist code.now }
    ensures points { IfOk result (λ points. ArePoints code.now points.sets) }
    ensures touched { IfOk result (λ points. AreTouched code.now points) }
{
    let sets = sets(alloc, code)?;
    let reads = pairs(alloc, code, &sets, Access::Reads)?;
    let writes = pairs(alloc, code, &sets, Access::Writes)?;
    Ok(Points {
        sets,
        reads,
        writes,
    })
}
