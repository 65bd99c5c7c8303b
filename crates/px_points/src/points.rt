//! The places that may point to the object of Main.
ghost use Rattle.std.specs.Prelude.{◌≡◌};
ghost use Rattle.px_points.specs.Marks.{is_marked, is_open};
ghost use Rattle.px_points.specs.Places.{slot_points, slot_at, with_slot, with_field, marks_at};

use crate::marks::Marks;
use std::marker::Model;

/// The slots of methods, and the fields of the object of Main.
#[derive(Drop)]
pub struct Points {
    // By the number of the method, from 0.
    pub(crate) slots: Vec<Marks>,
    pub(crate) fields: Marks,
}

impl Model for Points {
    ghost use Rattle.px_points.specs.Places.{Places};

    ghost Value = { Places };

    ghost view = { λ points. record { slots = points.slots.items; fields = points.fields } };
}

impl Points {
    /// Whether a slot of a method, by its number from 1, may point to the object of Main.
    pub fn slot(&self, method: u16, slot: u16) -> bool
        ensures { result ≡ slot_points self.now method slot }
    {
        method != 0 && self.slot_at(usize::from(method) - 1, slot)
    }

    pub fn field(&self, field: u16) -> bool
        ensures { result ≡ is_marked self.now.fields field }
    {
        self.fields.has(field)
    }

    // Whether a slot is marked, by the place of its method.
    pub(crate) fn slot_at(&self, place: usize, slot: u16) -> bool
        ensures { result ≡ slot_at self.now place slot }
    {
        match self.slots.get(place) {
            Some(marks) => marks.has(slot),
            None => false,
        }
    }

    // Marks a slot, if it is there, and says whether this is new.
    pub(crate) fn mark_slot(&mut self, place: usize, slot: u16) -> bool
        ensures points { self.new ≡ with_slot self.old place slot }
        ensures new { result ≡ is_open (marks_at self.old.slots place) slot }
    {
        place < self.slots.len() && self.slots[place].mark(slot)
    }

    pub(crate) fn mark_field(&mut self, field: u16) -> bool
        ensures points { self.new ≡ with_field self.old field }
        ensures new { result ≡ is_open self.old.fields field }
    {
        self.fields.mark(field)
    }
}
