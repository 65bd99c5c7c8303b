//! What is planned for a part of a job.
ghost use Rattle.std.specs.Prelude.{◌≡◌, unwrap_or, IfOk};
ghost use Rattle.px_graph.specs.Costs.{cost as cost_in};
ghost use Rattle.px_graph.specs.Problem.{IsProblem};
ghost use Rattle.px_choose.specs.Placements.{all_at as all_sides_at};
ghost use Rattle.px_partition.specs.Plans.{IsPlaced, IsPlan, free_pins};

use px_choose::choose;
use px_code::{Pins, Placement, Side};
use px_graph::Graph;
use sqlite_items::Items;
use std::alloc::{AllocError, Global};

/// Where nodes are placed, and what that costs beside the two simplest placements.
#[derive(Drop)]
pub struct Plan {
    pub placement: Placement,
    pub cost: u128,
    /// The runs of the statements at DB.
    pub load: u64,
    /// What it costs that all nodes but the pinned ones are at APP.
    pub app: u128,
    /// What it costs that they are at DB.
    pub db: u128,
}

fn side_or(pin: Option<Side>, side: Side) -> Side
    ensures { result ≡ unwrap_or pin side }
{
    match pin {
        Some(pin) => pin,
        None => side,
    }
}

fn all_at(alloc: Global, pins: &Pins, side: Side) -> Result<Placement, AllocError>
    ensures { IfOk result (λ placement. placement.sides ≡ all_sides_at side pins.now.sides) }
{
    let mut sides = Items::new(alloc);
    for pin in pins.sides.as_slice() {
        sides.push(side_or(*pin, side))?;
    }
    Ok(Placement { sides })
}

fn cost_at(alloc: Global, graph: &Graph, pins: &Pins, side: Side) -> Result<u128, AllocError>
    requires { IsProblem graph.now pins.now.sides }
    ensures { IfOk result (λ sum. sum ≡ cost_in graph.now (all_sides_at side pins.now.sides)) }
{
    let placement = all_at(alloc, pins, side)?;
    Ok(graph.cost(&placement))
}

fn placed(
    alloc: Global,
    graph: &Graph,
    budget: Option<u64>,
    pins: &Pins,
) -> Result<Placement, AllocError>
    requires { IsProblem graph.now pins.now.sides }
    ensures { IfOk result (λ placement. IsPlaced graph.now budget pins.now.sides placement.sides) }
{
    match budget {
        Some(budget) => choose(alloc, graph, budget, pins),
        None => all_at(alloc, pins, Side::App),
    }
}

fn free_pins<'a>(budget: Option<u64>, pins: &'a Pins, prints: &'a Pins) -> &'a Pins
    ensures { result.now.sides ≡ free_pins budget pins.now.sides prints.now.sides }
{
    match budget {
        Some(_) => pins,
        None => prints,
    }
}

/// The plan of a part with these sides, where `prints` are the sides of prints alone. Where the part has a budget its sides are pins, and the rest is chosen; where it has none they are all that there is.
pub fn plan_part(
    alloc: Global,
    graph: &Graph,
    budget: Option<u64>,
    pins: &Pins,
    prints: &Pins,
) -> Result<Plan, AllocError>
    requires problem { IsProblem graph.now pins.now.sides }
    requires prints { IsProblem graph.now prints.now.sides }
    ensures { IfOk result (λ plan. IsPlan graph.now budget pins.now.sides prints.now.sides plan) }
{
    let placement = placed(alloc, graph, budget, pins)?;
    let pins = free_pins(budget, pins, prints);
    let app = cost_at(alloc, graph, pins, Side::App)?;
    let db = cost_at(alloc, graph, pins, Side::Db)?;
    let cost = graph.cost(&placement);
    let load = graph.load(&placement);
    Ok(Plan {
        placement,
        cost,
        load,
        app,
        db,
    })
}
