//! Numbers by names.

ghost use Rattle.std.specs.Prelude.{◌≡◌, ℕ, List, Some, None, OnOk, if◌then◌else◌};
ghost use Rattle.std.specs.Str.{bytes_eq};
ghost use Rattle.px_job.specs.Places.{place_in};

use std::alloc::{AllocError, Global};
use std::collections::HashMap;

/// A number for each of some names.
#[derive(Drop)]
pub(crate) struct Places<'a> {
    map: HashMap<&'a [u8], usize>,
}

impl<'a> Places<'a> {
    pub(crate) fn new(alloc: Global) -> Places<'a>
        ensures { (name : List ℕ) → place_in result.map name ≡ None }
    {
        Places {
            map: HashMap::new(alloc),
        }
    }

    /// Gives a name its number, instead of the one that it had.
    pub(crate) fn put(&mut self, name: &'a [u8], number: usize) -> Result<(), AllocError>
        ensures { OnOk result ((other : List ℕ) → place_in self.new.map other ≡ (if bytes_eq name.now other then Some number else place_in self.old.map other)) }
    {
        self.map.insert(name, number)?;
        Ok(())
    }

    pub(crate) fn get(&self, name: &[u8]) -> Option<usize>
        ensures { result ≡ place_in self.now.map name.now }
    {
        self.map.get(name).copied()
    }
}
