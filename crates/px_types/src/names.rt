//! Sets of names.
ghost use Rattle.std.specs.Prelude.{◌≡◌, ◌<◌, [], ◌∷◌, ◌++◌, not, if◌then◌else◌, length, take, IfOk, OnErr, IfSome};
ghost use Rattle.px_types.specs.Names.{place_of, has_name, reserved};

use indexmap::IndexSet;
use std::alloc::{AllocError, Global};
use std::marker::Model;

/// Different names, in the order in which they were added.
#[derive(Drop)]
pub struct Names {
    set: IndexSet<Vec<u8>>,
}

impl Model for Names {
    ghost use Rattle.std.specs.Prelude.{List, ℕ, map};

    ghost Value = { List (List ℕ) };

    ghost view = { λ n. map (λ v. v.items) n.set.keys };
}

impl Names {
    pub fn new(alloc: Global) -> Names
        ensures { result ≡ [] }
    {
        Names {
            set: IndexSet::new(alloc),
        }
    }

    pub fn len(&self) -> usize
        ensures { result ≡ length self.now }
    {
        self.set.len()
    }

    /// The number of names that were added before this one.
    pub fn place(&self, name: &[u8]) -> Option<usize>
        ensures place { result ≡ place_of name.now self.now }
        ensures within { IfSome result (λ place. place < length self.now) }
    {
        self.set.get_index_of(name)
    }

    /// Whether the name was new.
    pub fn add(&mut self, alloc: Global, name: &[u8]) -> Result<bool, AllocError>
        ensures added { IfOk result (λ added. added ≡ not (has_name name.now self.old)) }
        ensures names { IfOk result (λ added. self.new ≡ (if added then self.old ++ name.now ∷ [] else self.old)) }
        ensures err { OnErr result (self.new ≡ self.old) }
    {
        let name = Vec::from_slice(alloc, name)?;
        let (_, added) = self.set.insert_full(name)?;
        Ok(added)
    }

    /// Keeps the oldest names.
    pub fn truncate(&mut self, count: usize)
        ensures { self.new ≡ take count self.old }
    {
        self.set.truncate(count);
    }
}

pub fn is_reserved(name: &[u8]) -> bool
    ensures { result ≡ has_name name.now reserved }
{
    name == "Db".as_bytes()
        || name == "System".as_bytes()
        || name == "String".as_bytes()
        || name == "ResultSet".as_bytes()
}
