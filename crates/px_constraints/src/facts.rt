//! What is known, and what of it still has to be followed.
ghost use Rattle.std.specs.Prelude.{◌≡◌, ◌++◌, ◌∷◌, [], OnOk, IfOk, MatchOption};
ghost use Rattle.px_constraints.specs.Search.{items_at, added, added_each, added_all, with_starts, none_known};

use crate::lists::Sites;
use crate::system::System;
use std::alloc::{AllocError, Global};
use std::marker::Model;

/// A variable may lead to objects of a site.
#[derive(Clone, Copy, Debug, PartialEq, Eq)]
pub struct Fact {
    pub var: u32,
    pub site: u16,
}

#[derive(Drop)]
pub struct Facts {
    // By variable.
    pub(crate) sets: Vec<Sites>,
    // The facts whose consequences aren't drawn yet.
    pub(crate) work: Vec<Fact>,
}

impl Model for Facts {
    ghost use Rattle.px_constraints.specs.Search.{FactsOf};

    ghost Value = { FactsOf };

    ghost view = { λ facts. record { sets = facts.sets.items; work = facts.work.items } };
}

impl Facts {
    fn add_starts(&mut self, alloc: Global, starts: &[Fact]) -> Result<(), AllocError>
        ensures { OnOk result (self.new ≡ with_starts starts.now self.old) }
    {
        for start in starts {
            self.add(alloc, start.var, start.site)?;
        }
        Ok(())
    }

    /// What is known of a system before a fact is followed.
    pub fn first(alloc: Global, system: &System) -> Result<Facts, AllocError>
        ensures { IfOk result (λ facts. facts ≡ with_starts system.now.starts (none_known system.now)) }
    {
        let mut sets = Vec::new(alloc);
        for _targets in system.copies() {
            sets.push(Sites::new(alloc))?;
        }
        let mut facts = Facts {
            sets,
            work: Vec::new(alloc),
        };
        facts.add_starts(alloc, system.starts())?;
        Ok(facts)
    }

    /// Takes a fact to follow.
    pub fn take(&mut self) -> Option<Fact>
        ensures sets { self.new.sets ≡ self.old.sets }
        ensures work { MatchOption result (self.old.work ≡ []) (λ fact. self.old.work ≡ self.new.work ++ fact ∷ []) }
    {
        self.work.pop()
    }

    /// The sites of each variable, in the order in which they were found.
    pub fn all(&self) -> &[Sites]
        ensures { result.now ≡ self.now.sets }
    {
        self.sets.as_slice()
    }

    /// The sites of a variable, in the order in which they were found.
    pub fn sites(&self, var: u32) -> &[u16]
        ensures { result.now ≡ items_at self.now.sets var }
    {
        match self.sets.get(var as usize) {
            Some(sites) => sites.as_slice(),
            None => &[],
        }
    }

    /// Adds a fact, and notes it as one to follow if it is new.
    pub fn add(&mut self, alloc: Global, var: u32, site: u16) -> Result<(), AllocError>
        ensures { OnOk result (self.new ≡ added self.old var site) }
    {
        let place = var as usize;
        if place >= self.sets.len() {
            return Ok(());
        }
        let new = self.sets[place].add(alloc, site)?;
        if new {
            self.work.push(Fact { var, site })?;
        }
        Ok(())
    }

    /// Adds a site to each of the variables.
    pub fn add_each(&mut self, alloc: Global, targets: &[u32], site: u16) -> Result<(), AllocError>
        ensures { OnOk result (self.new ≡ added_each targets.now site self.old) }
    {
        for target in targets {
            self.add(alloc, *target, site)?;
        }
        Ok(())
    }

    /// Adds each of the sites to a variable.
    pub fn add_all(&mut self, alloc: Global, var: u32, sites: &[u16]) -> Result<(), AllocError>
        ensures { OnOk result (self.new ≡ added_all var sites.now self.old) }
    {
        for site in sites {
            self.add(alloc, var, *site)?;
        }
        Ok(())
    }
}
