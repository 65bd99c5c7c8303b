//! What placements cost, and their load, added up by hand.
ghost use Rattle.px_graph.specs.Problem.{IsProblem};

use crate::graphs::{SIX, Tables, graph, pins, placement};
use px_code::{Pins, Placement};
use px_graph::{Graph, is_problem};
use std::alloc::{AllocError, Global};
use std::test::Fail;

// The sides of the nodes, the weights of the edges whose ends are apart, and the counts of the nodes at DB.
const SUMS: [(&str, u128, u64); 12] = [
    ("AAAAAA", 30, 0),
    ("DDDDDD", 4, 3 + 2 + 5),
    ("DAAAAA", 4 + 10 + 10 + 30, 0),
    ("ADAAAA", 10 + 8 + 1, 3),
    ("AADAAA", 10 + 30 + 10 + 8 + 1 + 7 + 5, 2),
    ("AAADAA", 30 + 10 + 10, 0),
    ("AAAADA", 30 + 10 + 7, 5),
    ("AAAAAD", 30 + 5, 0),
    ("DDDAAA", 4 + 10 + 7 + 5, 3 + 2),
    ("AAADDA", 30 + 10 + 7, 5),
    ("DADADA", 4 + 10 + 30 + 10 + 10 + 8 + 1 + 5, 2 + 5),
    // nodes that aren't there are at APP
    ("DD", 4 + 10 + 8 + 1, 3),
];

fn sums_of(graph: &Graph, _pins: &Pins, placement: &Placement) -> (u128, u64)
    requires { IsProblem graph.now _pins.now.sides }
{
    (graph.cost(placement), graph.load(placement))
}

// None where a sum might not fit.
fn sums(alloc: Global, tables: &Tables, letters: &str) -> Result<Option<(u128, u64)>, AllocError> {
    let graph = graph(alloc, tables)?;
    let free = pins(alloc, letters)?;
    if !is_problem(&graph, &free) {
        return Ok(None);
    }
    let placement = placement(alloc, letters)?;
    Ok(Some(sums_of(&graph, &free, &placement)))
}

#[test]
fn sums_are_as_by_hand(rt: HostRuntime) -> Result<(), Fail> {
    let alloc = rt.alloc();
    for (letters, cost, load) in SUMS {
        assert_eq!(rt;
            sums(alloc, &SIX, letters)?,
            Some((cost, load)),
            "{letters}"
        );
    }
    Ok(())
}

// Counts, and whether their sum fits.
const COUNTS: [(&[u64], bool); 4] = [
    (&[], true),
    (&[u64::MAX], true),
    (&[u64::MAX, 1], false),
    (&[1, u64::MAX - 1], true),
];

#[test]
fn counts_fit_up_to_their_end(rt: HostRuntime) -> Result<(), Fail> {
    let alloc = rt.alloc();
    let free = pins(alloc, "--")?;
    for (counts, want) in COUNTS {
        let graph = graph(
            alloc,
            &Tables {
                edges: &[],
                counts,
                methods: &[],
            },
        )?;
        assert_eq!(rt; is_problem(&graph, &free), want);
    }
    Ok(())
}
