//! The edges of the graph.
ghost use Rattle.std.specs.Prelude.{◌≡◌, ◌≤◌, ◌<◌, ◌*◌, ◌^◌, map, length, IfOk};
ghost use Rattle.px_graph.specs.Costs.{whole};
ghost use Rattle.px_partition.specs.Runs.{AreFew};
ghost use Rattle.px_partition.specs.Weights.{weighed, AreRates, AreSmall};

use crate::rates::Rates;
use crate::weights::weighed;
use px_code::Counts;
use px_depend::Edge as Dependence;
use px_graph::Edge;
use px_normal::Code;
use sqlite_items::Items;
use std::alloc::{AllocError, Global};

/// An edge for each dependence.
pub fn edges(
    alloc: Global,
    code: &Code,
    counts: &Counts,
    rates: Rates,
    dependences: &[Dependence],
) -> Result<Items<Edge>, AllocError>
    requires few { AreFew counts.now }
    requires rates { AreRates rates }
    requires small { AreSmall dependences.now }
    ensures same { IfOk result (λ edges. edges ≡ map (weighed code.now counts.now rates) dependences.now) }
    ensures sum { IfOk result (λ edges. whole edges ≤ length dependences.now * 2 ^ 52) }
{
    let mut edges = Items::new(alloc);
    for dependence in dependences {
        edges.push(weighed(code, counts, rates, dependence))?;
    }
    Ok(edges)
}
