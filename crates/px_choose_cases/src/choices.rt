//! What is chosen, found by hand: the first change that fits and is cheaper, again and again.
ghost use Rattle.px_graph.specs.Problem.{IsProblem};

use crate::graphs::{PAIR, RIVALS, SIX, Tables, graph, letters, pins};
use px_choose::choose;
use px_code::{Pins, Placement};
use px_graph::{Graph, is_problem};
use std::alloc::{AllocError, Global};
use std::test::Fail;

// A graph, a budget, pins, what is chosen, and its cost.
const CHOICES: [(Tables, u64, &str, &str, u128); 19] = [
    // All at DB is the best, and fits where the budget is just reached.
    (SIX, 1000, "------", "DDDDDD", 4),
    (SIX, 10, "------", "DDDDDD", 4),
    // From all at APP only the query goes.
    (SIX, 9, "------", "ADAAAA", 19),
    (SIX, 3, "------", "ADAAAA", 19),
    (SIX, 2, "------", "AAAAAA", 30),
    (SIX, 0, "------", "AAAAAA", 30),
    // What is pinned at DB takes nothing of the budget.
    (SIX, 5, "DDD---", "DDDDDD", 4),
    // The method node costs as much at one side as at the other, so it stays.
    (SIX, 4, "DDD---", "DDDAAD", 21),
    (SIX, 0, "-DA---", "ADAAAA", 19),
    (SIX, 0, "ADDAAA", "ADDAAA", 42),
    // Neither node would go alone, but the method goes where the budget is just reached.
    (PAIR, 5, "----", "DDAA", 0),
    (PAIR, 4, "----", "AAAA", 12),
    (PAIR, 0, "----", "AAAA", 12),
    // With pins one of them goes alone, or none.
    (PAIR, 2, "-D--", "DDAA", 0),
    (PAIR, 1, "-D--", "ADAA", 16),
    (PAIR, 1000, "A---", "AAAA", 12),
    (PAIR, 1000, "AD--", "ADAA", 16),
    // The first that goes leaves no room for the second, though that would be better.
    (RIVALS, 3, "--", "DA", 9),
    (RIVALS, 6, "--", "DD", 0),
];

fn cost(graph: &Graph, _pins: &Pins, placement: &Placement) -> u128
    requires { IsProblem graph.now _pins.now.sides }
{
    graph.cost(placement)
}

// What is chosen, and its cost; none where a sum might not fit.
fn choice(
    alloc: Global,
    tables: &Tables,
    budget: u64,
    pinned: &str,
) -> Result<Option<(String, u128)>, AllocError> {
    let graph = graph(alloc, tables)?;
    let pins = pins(alloc, pinned)?;
    if !is_problem(&graph, &pins) {
        return Ok(None);
    }
    let placement = choose(alloc, &graph, budget, &pins)?;
    let cost = cost(&graph, &pins, &placement);
    Ok(Some((letters(alloc, &placement)?, cost)))
}

#[test]
fn choices_are_as_by_hand(rt: HostRuntime) -> Result<(), Fail> {
    let alloc = rt.alloc();
    for (tables, budget, pinned, want, cost) in CHOICES {
        match choice(alloc, &tables, budget, pinned)? {
            Some((chosen, sum)) => {
                assert_eq!(rt; chosen.as_str(), want, "{budget} {pinned}");
                assert_eq!(rt; sum, cost, "{budget} {pinned}");
            }
            None => assert_eq!(rt; "no problem", want),
        }
    }
    Ok(())
}
