//! Constraints on which sites a variable may lead to.
ghost use Rattle.std.specs.Prelude.{◌≡◌, [], replicate, OnOk, IfOk};
ghost use Rattle.px_constraints.specs.Systems.{with_constraint, with_constraints, no_constraints};
ghost use Rattle.px_constraints.specs.System.{cell_of, loads_at, stores_at};

use crate::facts::Fact;
use crate::lists::{Looks, Targets};
use std::alloc::{AllocError, Global};
use std::marker::Model;

/// Looks at a part of what a variable leads to: reads it into a slot, or writes it from one.
#[derive(Clone, Copy, Debug, PartialEq, Eq)]
pub struct Look {
    pub part: u16,
    pub slot: u32,
}

/// The variables of the parts of a site: the first, and how many there are.
#[derive(Clone, Copy, Debug, PartialEq, Eq)]
pub struct Cells {
    pub first: u32,
    pub count: u32,
}

/// What holds of variables: a fact; one has all that another has; a look behind one.
#[derive(Clone, Copy, Debug, PartialEq, Eq)]
pub enum Constraint {
    Start(Fact),
    Copies(u32, u32),
    Loads(u32, Look),
    Stores(u32, Look),
}

#[derive(Drop)]
pub struct System {
    // What the facts begin with.
    starts: Vec<Fact>,
    // By variable.
    copies: Vec<Targets>,
    loads: Vec<Looks>,
    stores: Vec<Looks>,
    // By site.
    cells: Vec<Cells>,
}

impl Model for System {
    ghost use Rattle.px_constraints.specs.Systems.{System as SystemOf};

    ghost Value = { SystemOf };

    ghost view = { λ system. record { starts = system.starts.items; copies = system.copies.items; loads = system.loads.items; stores = system.stores.items; cells = system.cells.items } };
}

fn no_targets(alloc: Global, count: u32) -> Result<Vec<Targets>, AllocError>
    ensures { IfOk result (λ lists. lists.items ≡ replicate count []) }
{
    let mut lists = Vec::new(alloc);
    for _ in 0..count {
        lists.push(Targets::new(alloc))?;
    }
    Ok(lists)
}

fn no_looks(alloc: Global, count: u32) -> Result<Vec<Looks>, AllocError>
    ensures { IfOk result (λ lists. lists.items ≡ replicate count []) }
{
    let mut lists = Vec::new(alloc);
    for _ in 0..count {
        lists.push(Looks::new(alloc))?;
    }
    Ok(lists)
}

/// The variable of a part of a site.
pub fn cell_in(cells: &[Cells], site: u16, part: u16) -> Option<u32>
    ensures { result ≡ cell_of cells.now site part }
{
    let cells = cells.get(usize::from(site))?;
    if u32::from(part) < cells.count {
        cells.first.checked_add(u32::from(part))
    } else {
        None
    }
}

impl System {
    pub fn starts(&self) -> &[Fact]
        ensures { result.now ≡ self.now.starts }
    {
        self.starts.as_slice()
    }

    pub fn copies(&self) -> &[Targets]
        ensures { result.now ≡ self.now.copies }
    {
        self.copies.as_slice()
    }

    fn copy(&mut self, from: u32, to: u32) -> Result<(), AllocError>
        ensures { OnOk result (self.new ≡ with_constraint (Constraint.Copies from to) self.old) }
    {
        let place = from as usize;
        if place >= self.copies.len() {
            return Ok(());
        }
        self.copies[place].push(to)
    }

    fn load(&mut self, of: u32, look: Look) -> Result<(), AllocError>
        ensures { OnOk result (self.new ≡ with_constraint (Constraint.Loads of look) self.old) }
    {
        let place = of as usize;
        if place >= self.loads.len() {
            return Ok(());
        }
        self.loads[place].push(look)
    }

    fn store(&mut self, of: u32, look: Look) -> Result<(), AllocError>
        ensures { OnOk result (self.new ≡ with_constraint (Constraint.Stores of look) self.old) }
    {
        let place = of as usize;
        if place >= self.stores.len() {
            return Ok(());
        }
        self.stores[place].push(look)
    }

    pub fn add(&mut self, constraint: Constraint) -> Result<(), AllocError>
        ensures { OnOk result (self.new ≡ with_constraint constraint self.old) }
    {
        match constraint {
            Constraint::Start(fact) => {
                self.starts.push(fact)?;
                Ok(())
            }
            Constraint::Copies(from, to) => self.copy(from, to),
            Constraint::Loads(of, look) => self.load(of, look),
            Constraint::Stores(of, look) => self.store(of, look),
        }
    }

    pub fn add_all(&mut self, constraints: &[Constraint]) -> Result<(), AllocError>
        ensures { OnOk result (self.new ≡ with_constraints constraints.now self.old) }
    {
        for constraint in constraints {
            self.add(*constraint)?;
        }
        Ok(())
    }

    /// Variables and parts without a constraint.
    pub fn new(alloc: Global, vars: u32, cells: Vec<Cells>) -> Result<System, AllocError>
        ensures { IfOk result (λ system. system ≡ no_constraints vars cells.items) }
    {
        Ok(System {
            starts: Vec::new(alloc),
            copies: no_targets(alloc, vars)?,
            loads: no_looks(alloc, vars)?,
            stores: no_looks(alloc, vars)?,
            cells,
        })
    }

    /// The variable of a part of a site.
    pub fn cell(&self, site: u16, part: u16) -> Option<u32>
        ensures { result ≡ cell_of self.now.cells site part }
    {
        cell_in(self.cells.as_slice(), site, part)
    }

    pub fn into_cells(self) -> Vec<Cells>
        ensures { result.items ≡ self.cells }
    {
        self.cells
    }

    pub fn loads_of(&self, var: u32) -> &[Look]
        ensures { result.now ≡ loads_at self.now var }
    {
        match self.loads.get(var as usize) {
            Some(looks) => looks.as_slice(),
            None => &[],
        }
    }

    pub fn stores_of(&self, var: u32) -> &[Look]
        ensures { result.now ≡ stores_at self.now var }
    {
        match self.stores.get(var as usize) {
            Some(looks) => looks.as_slice(),
            None => &[],
        }
    }
}
