//! A pass over all statements, which marks what follows from the marks.
ghost use Rattle.std.specs.Prelude.{◌≡◌, false};
ghost use Rattle.px_points.specs.Pass.{after_slot, after_field, after_word, after_body, after_methods};

use crate::points::Points;
use px_code::{Method, Operand, Tree, Word};

/// The marks in the middle of a pass, and whether it found a new one.
#[derive(Drop)]
pub struct Draft {
    pub points: Points,
    pub changed: bool,
}

impl Draft {
    // Marks a slot where its reference comes from a marked place.
    fn slot_if(&mut self, follows: bool, place: usize, slot: u16)
        ensures { self.new ≡ after_slot follows place slot self.old }
    {
        if follows && self.points.mark_slot(place, slot) {
            self.changed = true;
        }
    }

    fn field_if(&mut self, follows: bool, field: u16)
        ensures { self.new ≡ after_field follows field self.old }
    {
        if follows && self.points.mark_field(field) {
            self.changed = true;
        }
    }

    fn word(&mut self, place: usize, word: &Word)
        ensures { self.new ≡ after_word place word.now self.old }
    {
        match word {
            Word::Set {
                to,
                value: Operand::Slot(from),
            } => {
                let follows = self.points.slot_at(place, *from);
                self.slot_if(follows, place, *to);
            }
            Word::Get {
                to,
                of: Operand::Slot(of),
                class: _,
                field,
            } => {
                let follows = self.points.slot_at(place, *of) && self.points.field(*field);
                self.slot_if(follows, place, *to);
            }
            Word::Put {
                of: Operand::Slot(of),
                class: _,
                field,
                value: Operand::Slot(value),
            } => {
                let follows = self.points.slot_at(place, *of) && self.points.slot_at(place, *value);
                self.field_if(follows, *field);
            }
            _ => {}
        }
    }

    fn body(&mut self, place: usize, body: &[Tree])
        ensures { self.new ≡ after_body place body.now self.old }
    {
        for tree in body {
            match tree {
                Tree::Do { node: _, word } => self.word(place, word),
            }
        }
    }

    fn methods(&mut self, methods: &[Method])
        ensures { self.new ≡ after_methods 0 methods.now self.old }
    {
        for (place, method) in methods.iter().enumerate() {
            self.body(place, method.body.as_slice());
        }
    }
}

/// One pass over the methods.
pub fn pass(points: Points, methods: &[Method]) -> Draft
    ensures { result ≡ after_methods 0 methods.now (record { points = points; changed = false }) }
{
    let mut draft = Draft {
        points,
        changed: false,
    };
    draft.methods(methods);
    draft
}
