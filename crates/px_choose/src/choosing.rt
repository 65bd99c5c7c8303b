//! The first change that fits and is cheaper, again and again.
ghost use Rattle.std.specs.Prelude.{◌≡◌, IfOk, OnOk, false};
ghost use Rattle.px_graph.specs.Problem.{IsProblem};
ghost use Rattle.px_choose.specs.Sums.{IsSmall};
ghost use Rattle.px_choose.specs.Choices.{is_better as is_better_than, first_better, begin_at, IsChoice};
ghost use Rattle.px_choose.specs.Good.{IsGood};
ghost use Rattle.px_choose.specs.Kept.{IsLinked, IsKept};
ghost use Rattle.px_choose.specs.Told.{told};

use crate::flips::better_flip;
use crate::links::{Links, link};
use crate::moves::better_move;
use crate::pins::all;
use crate::state::{State, start};
use crate::sums::{cost, free_load};
use crate::turn::turn;
use px_code::{Pins, Placement, Side};
use px_graph::Graph;
use sqlite_items::Items;
use std::alloc::{AllocError, Global};

// Makes the first change that is better.
fn better(
    alloc: Global,
    graph: &Graph,
    links: &Links,
    budget: u64,
    pins: &[Option<Side>],
    state: &mut State,
) -> Result<bool, AllocError>
    requires problem { IsProblem graph.now pins.now }
    requires linked { IsLinked graph.now pins.now links.now }
    requires kept { IsKept graph.now pins.now state.old }
    ensures kept { OnOk result (IsKept graph.now pins.now state.new) }
    ensures first { IfOk result (λ better. first_better graph.now budget pins.now state.old.sides.items ≡ told better state.new.sides.items) }
    ensures stays { IfOk result (λ better. better ≡ false → state.new.sides.items ≡ state.old.sides.items) }
{
    match better_flip(graph, links, budget, pins, state) {
        Some(node) => {
            turn(graph, links, pins, state, node);
            Ok(true)
        }
        None => better_move(
            alloc,
            graph,
            links,
            budget,
            pins,
            state,
            graph.methods.as_slice(),
        ),
    }
}

fn is_better(
    graph: &Graph,
    budget: u64,
    pins: &[Option<Side>],
    before: &[Side],
    after: &[Side],
) -> bool
    requires { IsSmall graph.now }
    ensures { result ≡ is_better_than graph.now budget pins.now before.now after.now }
{
    free_load(graph, pins, after) <= budget && cost(graph, after) < cost(graph, before)
}

// All free nodes at DB where that fits and is cheaper, else all at APP.
fn first(
    alloc: Global,
    graph: &Graph,
    budget: u64,
    pins: &[Option<Side>],
) -> Result<Vec<Side>, AllocError>
    requires { IsSmall graph.now }
    ensures { IfOk result (λ sides. sides.items ≡ begin_at graph.now budget pins.now) }
{
    let app = all(alloc, pins, Side::App)?;
    let db = all(alloc, pins, Side::Db)?;
    if is_better(graph, budget, pins, app.as_slice(), db.as_slice()) {
        Ok(db)
    } else {
        Ok(app)
    }
}

fn chosen(
    alloc: Global,
    graph: &Graph,
    budget: u64,
    pins: &[Option<Side>],
) -> Result<Vec<Side>, AllocError>
    requires { IsProblem graph.now pins.now }
    ensures choice { IfOk result (λ sides. IsChoice graph.now budget pins.now sides.items) }
    ensures good { IfOk result (λ sides. IsGood graph.now budget pins.now sides.items) }
{
    let links = link(alloc, graph, pins)?;
    let sides = first(alloc, graph, budget, pins)?;
    let mut state = start(alloc, graph, &links, pins, sides)?;
    'changes: while better(alloc, graph, &links, budget, pins, &mut state)? {}
    Ok(state.sides)
}

/// The placement that the rule fixes: it begins with all free nodes at DB where that fits and is cheaper, else at APP, and takes the first change that fits and is cheaper until there is none.
///
/// The changes are the flip of one free node, by number, and then, by method, its free nodes to APP and to DB. A placement fits where the counts of its free nodes at DB are together at most the budget. It needn't be the cheapest. Whether a graph and its pins may be asked about is told by `px_graph::is_problem`.
pub fn choose(
    alloc: Global,
    graph: &Graph,
    budget: u64,
    pins: &Pins,
) -> Result<Placement, AllocError>
    requires { IsProblem graph.now pins.now.sides }
    ensures choice { IfOk result (λ placement. IsChoice graph.now budget pins.now.sides placement.sides) }
    ensures good { IfOk result (λ placement. IsGood graph.now budget pins.now.sides placement.sides) }
{
    let sides = chosen(alloc, graph, budget, pins.sides.as_slice())?;
    Ok(Placement {
        sides: Items::from_vec(sides),
    })
}
