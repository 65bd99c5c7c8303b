//! The sets of slots and parts.
ghost use Rattle.std.specs.Prelude.{◌≡◌};
ghost use Rattle.px_constraints.specs.Search.{items_at};
ghost use Rattle.px_flow_points.specs.Exact.{cell_set, part_number, slot_set};

use crate::numbers::Numbers;
use crate::part::Part;
use px_constraints::{Cells, Set, cell_in};
use std::marker::Model;

/// By slot and by part of a site, the sites of the objects that its references may lead to.
#[derive(Drop)]
pub struct Sets {
    numbers: Numbers,
    // By site.
    cells: Vec<Cells>,
    // By variable.
    sets: Vec<Set>,
}

impl Model for Sets {
    ghost use Rattle.px_flow_points.specs.Exact.{PointsOf};

    ghost Value = { PointsOf };

    ghost view = { λ s. record { bases = s.numbers; cells = s.cells.items; sets = s.sets.items } };
}

fn number_of(part: Part) -> u16
    ensures { result ≡ part_number part }
{
    match part {
        Part::Field(field) => field,
        Part::Elements => 0,
    }
}

fn set_at(sets: &[Set], var: u32) -> &[u16]
    ensures { result.now ≡ items_at sets.now var }
{
    match sets.get(var as usize) {
        Some(set) => set.as_slice(),
        None => &[],
    }
}

impl Sets {
    pub fn new(numbers: Numbers, cells: Vec<Cells>, sets: Vec<Set>) -> Sets
        ensures { result ≡ record { bases = numbers; cells = cells.items; sets = sets.items } }
    {
        Sets {
            numbers,
            cells,
            sets,
        }
    }

    /// The sites of a slot of a method, in rising order.
    pub fn slot(&self, method: u16, slot: u16) -> &[u16]
        ensures { result.now ≡ slot_set self.now method slot }
    {
        set_at(
            self.sets.as_slice(),
            self.numbers.slot(method, usize::from(slot)),
        )
    }

    /// The sites of a part of the objects of a site, in rising order.
    pub fn cell(&self, site: u16, part: Part) -> &[u16]
        ensures { result.now ≡ cell_set self.now site part }
    {
        match cell_in(self.cells.as_slice(), site, number_of(part)) {
            Some(var) => set_at(self.sets.as_slice(), var),
            None => &[],
        }
    }
}
