//! The edges from the statements that write slots to those that read them.
ghost use Rattle.std.specs.Prelude.{◌≡◌, ◌++◌, ◌⊎◌, List, IfOk, OnOk};
ghost use Rattle.px_depend.specs.Places.{Flows, IsSummary};
ghost use Rattle.px_depend.specs.Summaries.{IsEmpty, IsCopy, IsFew, Adds, IsOver, IsRound, IsCross, IsMet, AreSummaries, in_turn, one_of, rounds, line, flows_of, shapes, IsSlotEdge, AreSlotEdges, given_one, given_all};

use crate::edge::Edge;
use crate::flows::{add_reached, either, of_test, of_word, round, then};
use crate::places::Place;
use crate::summary::Summary;
use px_normal::{Method, Tree, Ty};
use std::alloc::{AllocError, Global};
use std::slice;

fn empty(alloc: Global) -> Summary
    ensures { IsEmpty result }
{
    Summary {
        leave: Vec::new(alloc),
        arrive: Vec::new(alloc),
        written: Vec::new(alloc),
        completes: true,
    }
}

fn copy(alloc: Global, one: &Summary) -> Result<Summary, AllocError>
    ensures { IfOk result (λ s. IsCopy one.now s) }
{
    Ok(Summary {
        leave: Vec::from_slice(alloc, one.leave.as_slice())?,
        arrive: Vec::from_slice(alloc, one.arrive.as_slice())?,
        written: Vec::from_slice(alloc, one.written.as_slice())?,
        completes: one.completes,
    })
}

// One at most.
fn few(alloc: Global, list: &[Summary]) -> Result<Summary, AllocError>
    ensures { IfOk result (λ s. IsFew list.now s) }
{
    match sqlite_items::at(list, 0) {
        Some(one) => copy(alloc, one),
        None => Ok(empty(alloc)),
    }
}

// By halves, so that each place is copied few times.
fn join(
    alloc: Global,
    types: &[Ty],
    list: &[Summary],
    into: &mut Vec<Edge>,
) -> Result<Summary, AllocError>
    ensures sum { IfOk result (λ s. (fs : List Flows) → AreSummaries list.now fs → IsSummary s (line fs)) }
    ensures over { OnOk result ((fs : List Flows) → AreSummaries list.now fs → Adds into.old.items into.new.items (IsCross types.now fs)) }
{
    if list.len() < 2 {
        let one = few(alloc, list)?;
        return Ok(one);
    }
    let (left, right) = list.split_at(list.len() / 2);
    let first = join(alloc, types, left, into)?;
    let second = join(alloc, types, right, into)?;
    let whole = then(alloc, types, &first, &second, into)?;
    Ok(whole)
}

fn branches(
    alloc: Global,
    types: &[Ty],
    test: &Summary,
    yes: &Summary,
    no: &Summary,
    into: &mut Vec<Edge>,
) -> Result<Summary, AllocError>
    ensures sum { IfOk result (λ s. (f g h : Flows) → IsSummary test.now f → IsSummary yes.now g → IsSummary no.now h → IsSummary s (in_turn f (one_of g h))) }
    ensures over { OnOk result ((f g h : Flows) → IsSummary test.now f → IsSummary yes.now g → IsSummary no.now h → Adds into.old.items into.new.items (IsOver types.now f (one_of g h))) }
{
    let both = either(alloc, yes, no)?;
    then(alloc, types, test, &both, into)
}

fn turns(
    alloc: Global,
    types: &[Ty],
    first: &Summary,
    test: &Summary,
    body: &Summary,
    into: &mut Vec<Edge>,
) -> Result<Summary, AllocError>
    ensures sum { IfOk result (λ s. (f g h : Flows) → IsSummary first.now f → IsSummary test.now g → IsSummary body.now h → IsSummary s (rounds (in_turn f g) h)) }
    ensures over { OnOk result ((f g h : Flows) → IsSummary first.now f → IsSummary test.now g → IsSummary body.now h → Adds into.old.items into.new.items (λ e. IsOver types.now f g e ⊎ IsRound types.now (in_turn f g) h e)) }
{
    let head = then(alloc, types, first, test, into)?;
    let whole = round(alloc, types, &head, body, into)?;
    Ok(whole)
}

#[cycle(walk)]
fn tree(
    alloc: Global,
    types: &[Ty],
    tree_of: &Tree,
    into: &mut Vec<Edge>,
) -> Result<Summary, AllocError>
    ensures sum { IfOk result (λ s. IsSummary s (flows_of tree_of.now)) }
    ensures met { OnOk result (Adds into.old.items into.new.items (IsMet types.now (flows_of tree_of.now))) }
{
    match tree_of {
        Tree::Do { node, word } => {
            let one = of_word(alloc, *node, word)?;
            Ok(one)
        }
        Tree::If {
            node,
            test,
            yes,
            no,
        } => {
            let yes = trees(alloc, types, yes.as_slice(), into)?;
            let no = trees(alloc, types, no.as_slice(), into)?;
            let test = of_test(alloc, *node, test)?;
            let whole = branches(alloc, types, &test, &yes, &no, into)?;
            Ok(whole)
        }
        Tree::Loop {
            first,
            node,
            test,
            body,
        } => {
            let first = trees(alloc, types, first.as_slice(), into)?;
            let body = trees(alloc, types, body.as_slice(), into)?;
            let test = of_test(alloc, *node, test)?;
            let whole = turns(alloc, types, &first, &test, &body, into)?;
            Ok(whole)
        }
    }
}

#[cycle(walk)]
fn trees(
    alloc: Global,
    types: &[Ty],
    list: &[Tree],
    into: &mut Vec<Edge>,
) -> Result<Summary, AllocError>
    ensures sum { IfOk result (λ s. IsSummary s (shapes list.now)) }
    ensures met { OnOk result (Adds into.old.items into.new.items (IsMet types.now (shapes list.now))) }
{
    let mut all = Vec::new(alloc);
    for item in list {
        let one = tree(alloc, types, item, into)?;
        all.push(one)?;
    }
    let whole = join(alloc, types, all.as_slice(), into)?;
    Ok(whole)
}

fn add_parameter(
    types: &[Ty],
    params: u16,
    node: u32,
    place: &Place,
    into: &mut Vec<Edge>,
) -> Result<(), AllocError>
    ensures { OnOk result (into.new.items ≡ into.old.items ++ given_one types.now params node place.now) }
{
    if params < place.slot {
        return Ok(());
    }
    add_reached(types, place, slice::from_ref(&node), into)
}

// The method itself writes its parameters.
fn parameters(
    types: &[Ty],
    params: u16,
    node: u32,
    arrive: &[Place],
    into: &mut Vec<Edge>,
) -> Result<(), AllocError>
    ensures { OnOk result (into.new.items ≡ into.old.items ++ given_all types.now params node arrive.now) }
{
    for place in arrive {
        add_parameter(types, params, node, place, into)?;
    }
    Ok(())
}

fn method_edges(alloc: Global, method: &Method, into: &mut Vec<Edge>) -> Result<(), AllocError>
    ensures { OnOk result (Adds into.old.items into.new.items (IsSlotEdge method.now)) }
{
    let types = method.slots.as_slice();
    let body = trees(alloc, types, method.body.as_slice(), into)?;
    parameters(
        types,
        method.params,
        method.node,
        body.arrive.as_slice(),
        into,
    )?;
    Ok(())
}

pub fn slot_edges(alloc: Global, methods: &[Method], into: &mut Vec<Edge>) -> Result<(), AllocError>
    ensures { OnOk result (Adds into.old.items into.new.items (AreSlotEdges methods.now)) }
{
    for method in methods {
        method_edges(alloc, method, into)?;
    }
    Ok(())
}
