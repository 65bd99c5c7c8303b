//! Summaries of statements, put together.
ghost use Rattle.std.specs.Prelude.{◌≡◌, ◌++◌, ◌&&◌, ◌||◌, map, IfOk, OnOk};
ghost use Rattle.px_normal.specs.Words.{is_return};
ghost use Rattle.px_depend.specs.Places.{Flows, IsSummary};
ghost use Rattle.px_depend.specs.Summaries.{IsOfWord, IsOfTest, Follows, Chooses, Repeats, slot_edges_to, Adds, IsOver, IsRound, in_turn, one_of, rounds, reached, pairs};

use crate::edge::{Edge, End, Tie};
use crate::groups::Groups;
use crate::places::{Place, add_use, add_uses, written};
use crate::sizes::size_of;
use crate::summary::{Summary, add_passing, add_places, written_both, written_either};
use px_normal::{Operand, Ty, Word};
use std::alloc::{AllocError, Global};

fn add_edges(
    slot: u16,
    to: u32,
    ty: Ty,
    nodes: &[u32],
    into: &mut Vec<Edge>,
) -> Result<(), AllocError>
    ensures { OnOk result (into.new.items ≡ into.old.items ++ map (slot_edges_to slot to ty) nodes.now) }
{
    for node in nodes {
        into.push(Edge {
            from: End::Node(*node),
            to,
            tie: Tie::Slot(slot),
            size: size_of(ty),
        })?;
    }
    Ok(())
}

pub fn add_reached(
    types: &[Ty],
    place: &Place,
    nodes: &[u32],
    into: &mut Vec<Edge>,
) -> Result<(), AllocError>
    ensures { OnOk result (into.new.items ≡ into.old.items ++ reached types.now place.now nodes.now) }
{
    match sqlite_items::at(types, usize::from(place.slot)) {
        Some(ty) => add_edges(place.slot, place.node, *ty, nodes, into),
        None => Ok(()),
    }
}

/// The edges from writes to reads of their slots.
pub fn pair_up(
    alloc: Global,
    types: &[Ty],
    leave: &[Place],
    arrive: &[Place],
    into: &mut Vec<Edge>,
) -> Result<(), AllocError>
    ensures { OnOk result (into.new.items ≡ into.old.items ++ pairs types.now leave.now arrive.now) }
{
    let groups = Groups::new(alloc, leave)?;
    for place in arrive {
        add_reached(types, place, groups.at(place.slot), into)?;
    }
    Ok(())
}

fn returns(word: &Word) -> bool
    ensures { result ≡ is_return word.now }
{
    match word {
        Word::Return(_) => true,
        _ => false,
    }
}

/// A statement.
pub fn of_word(alloc: Global, node: u32, word: &Word) -> Result<Summary, AllocError>
    ensures { IfOk result (λ s. IsOfWord node word.now s) }
{
    let mut leave = Vec::new(alloc);
    let mut arrive = Vec::new(alloc);
    let mut slots = Vec::new(alloc);
    add_uses(node, word, &mut arrive)?;
    if let Some(slot) = written(word) {
        leave.push(Place { slot, node })?;
        slots.push(slot)?;
    }
    Ok(Summary {
        leave,
        arrive,
        written: slots,
        completes: !returns(word),
    })
}

/// A test.
pub fn of_test(alloc: Global, node: u32, test: &Operand) -> Result<Summary, AllocError>
    ensures { IfOk result (λ s. IsOfTest node test.now s) }
{
    let mut arrive = Vec::new(alloc);
    add_use(node, test, &mut arrive)?;
    Ok(Summary {
        leave: Vec::new(alloc),
        arrive,
        written: Vec::new(alloc),
        completes: true,
    })
}

fn both(left: bool, right: bool) -> bool
    ensures { result ≡ (left && right) }
{
    left && right
}

fn any(left: bool, right: bool) -> bool
    ensures { result ≡ (left || right) }
{
    left || right
}

fn followed(alloc: Global, first: &Summary, second: &Summary) -> Result<Summary, AllocError>
    ensures { IfOk result (λ s. Follows first.now second.now s) }
{
    let mut leave = Vec::new(alloc);
    add_passing(alloc, second, first.leave.as_slice(), &mut leave)?;
    add_places(second.leave.as_slice(), &mut leave)?;
    let mut arrive = Vec::from_slice(alloc, first.arrive.as_slice())?;
    add_passing(alloc, first, second.arrive.as_slice(), &mut arrive)?;
    Ok(Summary {
        leave,
        arrive,
        written: written_both(alloc, first, second)?,
        completes: both(first.completes, second.completes),
    })
}

/// One after the other.
pub fn then(
    alloc: Global,
    types: &[Ty],
    first: &Summary,
    second: &Summary,
    into: &mut Vec<Edge>,
) -> Result<Summary, AllocError>
    ensures sum { IfOk result (λ s. (f g : Flows) → IsSummary first.now f → IsSummary second.now g → IsSummary s (in_turn f g)) }
    ensures over { OnOk result ((f g : Flows) → IsSummary first.now f → IsSummary second.now g → Adds into.old.items into.new.items (IsOver types.now f g)) }
{
    pair_up(
        alloc,
        types,
        first.leave.as_slice(),
        second.arrive.as_slice(),
        into,
    )?;
    let whole = followed(alloc, first, second)?;
    Ok(whole)
}

fn chosen(alloc: Global, left: &Summary, right: &Summary) -> Result<Summary, AllocError>
    ensures { IfOk result (λ s. Chooses left.now right.now s) }
{
    let mut leave = Vec::from_slice(alloc, left.leave.as_slice())?;
    add_places(right.leave.as_slice(), &mut leave)?;
    let mut arrive = Vec::from_slice(alloc, left.arrive.as_slice())?;
    add_places(right.arrive.as_slice(), &mut arrive)?;
    Ok(Summary {
        leave,
        arrive,
        written: written_either(alloc, left, right)?,
        completes: any(left.completes, right.completes),
    })
}

/// One or the other.
pub fn either(alloc: Global, left: &Summary, right: &Summary) -> Result<Summary, AllocError>
    ensures { IfOk result (λ s. (f g : Flows) → IsSummary left.now f → IsSummary right.now g → IsSummary s (one_of f g)) }
{
    let whole = chosen(alloc, left, right)?;
    Ok(whole)
}

fn repeated(alloc: Global, head: &Summary, body: &Summary) -> Result<Summary, AllocError>
    ensures { IfOk result (λ s. Repeats head.now body.now s) }
{
    let mut leave = Vec::new(alloc);
    add_passing(alloc, head, body.leave.as_slice(), &mut leave)?;
    add_places(head.leave.as_slice(), &mut leave)?;
    let mut arrive = Vec::from_slice(alloc, head.arrive.as_slice())?;
    add_passing(alloc, head, body.arrive.as_slice(), &mut arrive)?;
    Ok(Summary {
        leave,
        arrive,
        written: Vec::from_slice(alloc, head.written.as_slice())?,
        completes: head.completes,
    })
}

/// The head of a loop, and any number of times its body and the head again.
pub fn round(
    alloc: Global,
    types: &[Ty],
    head: &Summary,
    body: &Summary,
    into: &mut Vec<Edge>,
) -> Result<Summary, AllocError>
    ensures sum { IfOk result (λ s. (f g : Flows) → IsSummary head.now f → IsSummary body.now g → IsSummary s (rounds f g)) }
    ensures over { OnOk result ((f g : Flows) → IsSummary head.now f → IsSummary body.now g → Adds into.old.items into.new.items (IsRound types.now f g)) }
{
    let once = then(alloc, types, head, body, into)?;
    let whole = repeated(alloc, head, body)?;
    pair_up(
        alloc,
        types,
        once.leave.as_slice(),
        whole.arrive.as_slice(),
        into,
    )?;
    Ok(whole)
}
