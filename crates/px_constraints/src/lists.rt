//! Lists of what belongs to one variable.
ghost use Rattle.std.specs.Prelude.{◌≡◌, ◌++◌, ◌∷◌, [], OnOk, OnErr, IfOk, not};
ghost use Rattle.px_constraints.specs.Sites.{has, padded, marked, all_marked, with_site};

use crate::system::Look;
use std::alloc::{AllocError, Global};
use std::marker::Model;

/// So many sites are looked through one by one.
const FEW: usize = 32;

/// The sites of a variable, in the order in which they were found.
#[derive(Drop)]
pub struct Sites {
    items: Vec<u16>,
    // By number, whether the site is among the items; empty as long as they are few.
    marks: Vec<bool>,
}

impl Model for Sites {
    ghost use Rattle.std.specs.Prelude.{List, ℕ};
    ghost use Rattle.px_constraints.specs.Sites.{AreMarked};

    ghost Value = { List ℕ };

    ghost view = { λ sites. sites.items.items };

    ghost invariant = { λ sites. AreMarked sites.items.items sites.marks.items };
}

// Makes room for so many marks.
fn pad(marks: &mut Vec<bool>, count: usize) -> Result<(), AllocError>
    ensures ok { OnOk result (marks.new.items ≡ padded marks.old.items count) }
    ensures err { OnErr result (marks.new.items ≡ marks.old.items) }
{
    if marks.len() < count {
        marks.resize(count, false)?;
    }
    Ok(())
}

fn set_mark(marks: &mut Vec<bool>, site: u16) -> Result<(), AllocError>
    ensures { OnOk result (marks.new.items ≡ marked marks.old.items site) }
{
    let place = usize::from(site);
    pad(marks, place + 1)?;
    marks[place] = true;
    Ok(())
}

fn marks_of(alloc: Global, sites: &[u16]) -> Result<Vec<bool>, AllocError>
    ensures { IfOk result (λ marks. marks.items ≡ all_marked [] sites.now) }
{
    let mut marks = Vec::new(alloc);
    for site in sites {
        set_mark(&mut marks, *site)?;
    }
    Ok(marks)
}

impl Sites {
    pub fn new(alloc: Global) -> Sites
        ensures { result ≡ [] }
    {
        Sites {
            items: Vec::new(alloc),
            marks: Vec::new(alloc),
        }
    }

    pub fn as_slice(&self) -> &[u16]
        ensures { result.now ≡ self.now }
    {
        self.items.as_slice()
    }

    fn holds(&self, site: u16) -> bool
        ensures { result ≡ has self.now site }
    {
        if self.marks.is_empty() {
            self.items.as_slice().contains(&site)
        } else {
            match self.marks.get(usize::from(site)) {
                Some(mark) => *mark,
                None => false,
            }
        }
    }

    // Adds a site that isn't there yet.
    fn push(&mut self, alloc: Global, site: u16) -> Result<(), AllocError>
        ensures { OnOk result (self.new ≡ self.old ++ site ∷ []) }
    {
        if self.marks.as_slice().is_empty() {
            self.items.push(site)?;
            if self.items.len() >= FEW {
                self.marks = marks_of(alloc, self.items.as_slice())?;
            }
            Ok(())
        } else {
            let place = usize::from(site);
            pad(&mut self.marks, place + 1)?;
            self.items.push(site)?;
            self.marks[place] = true;
            Ok(())
        }
    }

    /// Adds a site, and says whether it is new.
    pub fn add(&mut self, alloc: Global, site: u16) -> Result<bool, AllocError>
        ensures new { IfOk result (λ new. new ≡ not (has self.old site)) }
        ensures sites { OnOk result (self.new ≡ with_site self.old site) }
    {
        if self.holds(site) {
            return Ok(false);
        }
        self.push(alloc, site)?;
        Ok(true)
    }
}

/// The variables that have what this one has.
#[derive(Drop)]
pub struct Targets {
    items: Vec<u32>,
}

impl Model for Targets {
    ghost use Rattle.std.specs.Prelude.{List, ℕ};

    ghost Value = { List ℕ };

    ghost view = { λ targets. targets.items.items };
}

impl Targets {
    pub fn new(alloc: Global) -> Targets
        ensures { result ≡ [] }
    {
        Targets {
            items: Vec::new(alloc),
        }
    }

    pub fn copied(&self, alloc: Global) -> Result<Targets, AllocError>
        ensures { IfOk result (λ targets. targets ≡ self.now) }
    {
        Ok(Targets {
            items: Vec::from_slice(alloc, self.items.as_slice())?,
        })
    }

    pub fn as_slice(&self) -> &[u32]
        ensures { result.now ≡ self.now }
    {
        self.items.as_slice()
    }

    pub fn push(&mut self, target: u32) -> Result<(), AllocError>
        ensures { OnOk result (self.new ≡ self.old ++ target ∷ []) }
    {
        self.items.push(target)?;
        Ok(())
    }
}

/// What looks behind a variable.
#[derive(Drop)]
pub struct Looks {
    items: Vec<Look>,
}

impl Model for Looks {
    ghost use Rattle.std.specs.Prelude.{List};
    ghost use Rattle.px_constraints.specs.declared.system.Look.{Look};

    ghost Value = { List Look };

    ghost view = { λ looks. looks.items.items };
}

impl Looks {
    pub fn new(alloc: Global) -> Looks
        ensures { result ≡ [] }
    {
        Looks {
            items: Vec::new(alloc),
        }
    }

    pub fn as_slice(&self) -> &[Look]
        ensures { result.now ≡ self.now }
    {
        self.items.as_slice()
    }

    pub fn push(&mut self, look: Look) -> Result<(), AllocError>
        ensures { OnOk result (self.new ≡ self.old ++ look ∷ []) }
    {
        self.items.push(look)?;
        Ok(())
    }
}
