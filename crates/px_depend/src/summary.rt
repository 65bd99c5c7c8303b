//! What statements are to the slots before them and behind them.
ghost use Rattle.std.specs.Prelude.{◌≡◌, ◌++◌, List, ℕ, IfOk, OnOk};
ghost use Rattle.px_depend.specs.Places.{passing, others, AreSlots};
ghost use Rattle.px_depend.specs.Uses.{common};
ghost use Rattle.px_depend.specs.Summaries.{written_either};

use crate::places::Place;
use std::alloc::{AllocError, Global};
use std::collections::HashSet;

#[derive(Drop)]
pub struct Summary {
    /// Writes from which a path leads to the end.
    pub leave: Vec<Place>,
    /// Reads to which a path leads from the beginning.
    pub arrive: Vec<Place>,
    /// The slots that are written on each path to the end.
    pub written: Vec<u16>,
    /// Whether a path leads to the end.
    pub completes: bool,
}

pub fn add_places(places: &[Place], into: &mut Vec<Place>) -> Result<(), AllocError>
    ensures { OnOk result (into.new.items ≡ into.old.items ++ places.now) }
{
    for place in places {
        into.push(*place)?;
    }
    Ok(())
}

fn add_slots(slots: &[u16], into: &mut Vec<u16>) -> Result<(), AllocError>
    ensures { OnOk result (into.new.items ≡ into.old.items ++ slots.now) }
{
    for slot in slots {
        into.push(*slot)?;
    }
    Ok(())
}

fn set_of(alloc: Global, slots: &[u16]) -> Result<HashSet<u16>, AllocError>
    ensures { IfOk result (λ set. AreSlots set slots.now) }
{
    let mut set = HashSet::new(alloc);
    for slot in slots {
        set.insert(*slot)?;
    }
    Ok(set)
}

fn add_unless(set: &HashSet<u16>, places: &[Place], into: &mut Vec<Place>) -> Result<(), AllocError>
    ensures { (slots : List ℕ) → AreSlots set.now slots → OnOk result (into.new.items ≡ into.old.items ++ others slots places.now) }
{
    for place in places {
        if !set.contains(&place.slot) {
            into.push(*place)?;
        }
    }
    Ok(())
}

/// Those of some places whose slots these statements leave as they were.
pub fn add_passing(
    alloc: Global,
    by: &Summary,
    places: &[Place],
    into: &mut Vec<Place>,
) -> Result<(), AllocError>
    ensures { OnOk result (into.new.items ≡ into.old.items ++ passing by.now places.now) }
{
    if by.completes {
        let set = set_of(alloc, by.written.as_slice())?;
        add_unless(&set, places, into)?;
    }
    Ok(())
}

fn common(alloc: Global, left: &[u16], right: &[u16]) -> Result<Vec<u16>, AllocError>
    ensures { IfOk result (λ slots. slots.items ≡ common left.now right.now) }
{
    let set = set_of(alloc, right)?;
    let mut slots = Vec::new(alloc);
    for slot in left {
        if set.contains(slot) {
            slots.push(*slot)?;
        }
    }
    Ok(slots)
}

/// The slots that are written on each path to the end of one or the other.
pub fn written_either(
    alloc: Global,
    left: &Summary,
    right: &Summary,
) -> Result<Vec<u16>, AllocError>
    ensures { IfOk result (λ slots. slots.items ≡ written_either left.now right.now) }
{
    if !left.completes {
        return Vec::from_slice(alloc, right.written.as_slice());
    }
    if !right.completes {
        return Vec::from_slice(alloc, left.written.as_slice());
    }
    common(alloc, left.written.as_slice(), right.written.as_slice())
}

/// The slots of both.
pub fn written_both(alloc: Global, left: &Summary, right: &Summary) -> Result<Vec<u16>, AllocError>
    ensures { IfOk result (λ slots. slots.items ≡ left.now.written.items ++ right.now.written.items) }
{
    let mut slots = Vec::new(alloc);
    add_slots(left.written.as_slice(), &mut slots)?;
    add_slots(right.written.as_slice(), &mut slots)?;
    Ok(slots)
}
