//! The cells that were written since control came.
ghost use Rattle.std.specs.Prelude.{◌≡◌, [], ◌∷◌, map, OnOk, OnErr};
ghost use Rattle.px_blocks.specs.Machine.{marked, with_marks};
ghost use Rattle.px_control.specs.Marks.{cell_of, cells_of};

use indexmap::IndexSet;
use std::alloc::{AllocError, Global};
use std::marker::Model;

/// A cell, by its object and its index. Marks are in the order of objects, and then of indexes.
#[derive(Clone, Copy, Debug, PartialEq, Eq, PartialOrd, Ord, Hash)]
pub struct Mark {
    pub object: u32,
    pub index: u32,
}

/// Cells in the order of their first writes, each once.
#[derive(Drop)]
pub struct Marks {
    set: IndexSet<Mark>,
}

impl Model for Marks {
    ghost use Rattle.std.specs.Prelude.{List, map};
    ghost use Rattle.px_effects.specs.Act.{Place as Cell};
    ghost use Rattle.px_control.specs.Marks.{cell_of};

    ghost Value = { List Cell };

    ghost view = { λ m. map cell_of m.set.keys };
}

impl Marks {
    pub fn new(alloc: Global) -> Marks
        ensures { result ≡ [] }
    {
        Marks {
            set: IndexSet::new(alloc),
        }
    }

    pub fn as_slice(&self) -> &[Mark]
        ensures { map cell_of result.now ≡ self.now }
    {
        self.set.as_slice()
    }

    pub fn has(&self, mark: Mark) -> bool
        ensures { result ≡ marked self.now mark.object mark.index }
    {
        self.set.contains(&mark)
    }

    /// Marks a cell that was written.
    pub fn add(&mut self, mark: Mark) -> Result<(), AllocError>
        ensures ok { OnOk result (self.new ≡ with_marks (cell_of mark ∷ []) self.old) }
        ensures err { OnErr result (self.new ≡ self.old) }
    {
        self.set.insert(mark)?;
        Ok(())
    }

    pub fn clear(&mut self)
        ensures { self.new ≡ [] }
    {
        self.set.clear();
    }
}
