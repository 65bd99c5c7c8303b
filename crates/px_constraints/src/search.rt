//! The search: each step follows one fact.
ghost use Rattle.std.specs.Prelude.{◌≡◌, ◌++◌, ◌∷◌, [], OnOk, IfOk, MatchOption};
ghost use Rattle.px_constraints.specs.System.{AreThere};
ghost use Rattle.px_constraints.specs.Search.{edged, joined, loaded, stored, along, followed, first_search as search_at_first, IsLeast};

use crate::facts::{Fact, Facts};
use crate::lists::Targets;
use crate::system::{Look, System};
use std::alloc::{AllocError, Global};
use std::marker::Model;

#[derive(Drop)]
pub struct Search {
    facts: Facts,
    // By variable, the variables that have all that it has.
    edges: Vec<Targets>,
}

impl Model for Search {
    ghost use Rattle.px_constraints.specs.Search.{SearchOf};

    ghost Value = { SearchOf };

    ghost view = { λ search. record { facts = search.facts; edges = search.edges.items } };
}

impl Search {
    // Takes a fact to follow.
    fn next(&mut self) -> Option<Fact>
        ensures sets { self.new.facts.sets ≡ self.old.facts.sets }
        ensures edges { self.new.edges ≡ self.old.edges }
        ensures work { MatchOption result (self.old.facts.work ≡ []) (λ fact. self.old.facts.work ≡ self.new.facts.work ++ fact ∷ []) }
    {
        self.facts.take()
    }

    fn into_facts(self) -> Facts
        ensures { result ≡ self.facts }
    {
        self.facts
    }

    fn add_edge(&mut self, from: u32, to: u32) -> Result<(), AllocError>
        ensures { OnOk result (self.new ≡ edged from to self.old) }
    {
        let place = from as usize;
        if place >= self.edges.len() {
            return Ok(());
        }
        self.edges[place].push(to)
    }

    // All that one variable has, and will have, is had by another too.
    fn join(&mut self, alloc: Global, from: u32, to: u32) -> Result<(), AllocError>
        ensures { OnOk result (self.new ≡ joined from to self.old) }
    {
        self.add_edge(from, to)?;
        let sites = Vec::from_slice(alloc, self.facts.sites(from))?;
        self.facts.add_all(alloc, to, sites.as_slice())
    }

    fn load(
        &mut self,
        alloc: Global,
        system: &System,
        looks: &[Look],
        site: u16,
    ) -> Result<(), AllocError>
        ensures { OnOk result (self.new ≡ loaded system.now.cells looks.now site self.old) }
    {
        for look in looks {
            if let Some(cell) = system.cell(site, look.part) {
                self.join(alloc, cell, look.slot)?;
            }
        }
        Ok(())
    }

    fn store(
        &mut self,
        alloc: Global,
        system: &System,
        looks: &[Look],
        site: u16,
    ) -> Result<(), AllocError>
        ensures { OnOk result (self.new ≡ stored system.now.cells looks.now site self.old) }
    {
        for look in looks {
            if let Some(cell) = system.cell(site, look.part) {
                self.join(alloc, look.slot, cell)?;
            }
        }
        Ok(())
    }

    fn along(&mut self, alloc: Global, var: u32, site: u16) -> Result<(), AllocError>
        ensures { OnOk result (self.new ≡ along var site self.old) }
    {
        match self.edges.get(var as usize) {
            Some(targets) => self.facts.add_each(alloc, targets.as_slice(), site),
            None => Ok(()),
        }
    }

    // Draws what follows from a fact.
    fn follow(&mut self, alloc: Global, system: &System, fact: Fact) -> Result<(), AllocError>
        ensures { OnOk result (self.new ≡ followed system.now fact self.old) }
    {
        self.load(alloc, system, system.loads_of(fact.var), fact.site)?;
        self.store(alloc, system, system.stores_of(fact.var), fact.site)?;
        self.along(alloc, fact.var, fact.site)
    }
}

fn copied_edges(alloc: Global, copies: &[Targets]) -> Result<Vec<Targets>, AllocError>
    ensures { IfOk result (λ edges. edges.items ≡ copies.now) }
{
    let mut edges = Vec::new(alloc);
    for targets in copies {
        edges.push(targets.copied(alloc)?)?;
    }
    Ok(edges)
}

fn first_search(alloc: Global, system: &System) -> Result<Search, AllocError>
    ensures { IfOk result (λ search. search ≡ search_at_first system.now) }
{
    Ok(Search {
        facts: Facts::first(alloc, system)?,
        edges: copied_edges(alloc, system.copies())?,
    })
}

/// Exactly the facts that are derived.
pub fn solve(alloc: Global, system: &System) -> Result<Facts, AllocError>
    requires { AreThere system.now }
    ensures { IfOk result (λ facts. IsLeast system.now facts) }
{
    let mut search = first_search(alloc, system)?;
    'facts: while let Some(fact) = search.next() {
        search.follow(alloc, system, fact)?;
    }
    Ok(search.into_facts())
}
