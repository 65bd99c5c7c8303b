//! Numbers below a count, of which some are marked.
ghost use Rattle.std.specs.Prelude.{◌≡◌, false, IfOk};
ghost use Rattle.px_points.specs.Marks.{unmarked, is_marked, with_mark, is_open};

use std::alloc::{AllocError, Global};
use std::marker::Model;

/// A truth for each number below a count, seen as their list.
#[derive(Drop)]
pub struct Marks {
    items: Vec<bool>,
}

impl Model for Marks {
    ghost use Rattle.std.specs.Prelude.{List, Bool};

    ghost Value = { List Bool };

    ghost view = { λ marks. marks.items.items };
}

impl Marks {
    /// None is marked.
    pub fn new(alloc: Global, count: usize) -> Result<Marks, AllocError>
        ensures { IfOk result (λ marks. marks ≡ unmarked count) }
    {
        Ok(Marks {
            items: vec![in alloc; false; count]?,
        })
    }

    pub fn from_vec(items: Vec<bool>) -> Marks
        ensures { result ≡ items.items }
    {
        Marks { items }
    }

    pub fn has(&self, number: u16) -> bool
        ensures { result ≡ is_marked self.now number }
    {
        match self.items.get(usize::from(number)) {
            Some(marked) => *marked,
            None => false,
        }
    }

    pub fn as_slice(&self) -> &[bool]
        ensures { result.now ≡ self.now }
    {
        self.items.as_slice()
    }

    /// Marks a number, if it is below the count, and says whether this is new.
    pub fn mark(&mut self, number: u16) -> bool
        ensures marks { self.new ≡ with_mark self.old number }
        ensures new { result ≡ is_open self.old number }
    {
        let number = usize::from(number);
        if number >= self.items.len() {
            return false;
        }
        let new = !self.items[number];
        self.items[number] = true;
        new
    }
}
