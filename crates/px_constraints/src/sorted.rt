//! Sets as sorted lists.
ghost use Rattle.std.specs.Prelude.{◌≡◌, None, IfOk};
ghost use Rattle.px_constraints.specs.Sets.{is_above, risen, IsSetOf, AreSetsOf};

use crate::facts::Facts;
use std::alloc::{AllocError, Global};
use std::marker::Model;

/// Sites in rising order.
#[derive(Drop)]
pub struct Set {
    items: Vec<u16>,
}

impl Model for Set {
    ghost use Rattle.std.specs.Prelude.{List, ℕ};

    ghost Value = { List ℕ };

    ghost view = { λ set. set.items.items };
}

impl Set {
    pub fn as_slice(&self) -> &[u16]
        ensures { result.now ≡ self.now }
    {
        self.items.as_slice()
    }
}

// What of rising sites is greater than all before it.
fn risen(alloc: Global, sites: &[u16]) -> Result<Vec<u16>, AllocError>
    ensures { IfOk result (λ items. items.items ≡ risen None sites.now) }
{
    let mut items = Vec::new(alloc);
    let mut last: Option<u16> = None;
    for site in sites {
        if is_above(last, *site) {
            items.push(*site)?;
            last = Some(*site);
        }
    }
    Ok(items)
}

fn is_above(last: Option<u16>, site: u16) -> bool
    ensures { result ≡ is_above last site }
{
    match last {
        Some(last) => last < site,
        None => true,
    }
}

fn set_of(alloc: Global, sites: &[u16]) -> Result<Set, AllocError>
    ensures { IfOk result (λ set. IsSetOf sites.now set) }
{
    let mut all = Vec::from_slice(alloc, sites)?;
    all.sort()?;
    Ok(Set {
        items: risen(alloc, all.as_slice())?,
    })
}

/// The set of each variable.
pub fn sets_of(alloc: Global, facts: &Facts) -> Result<Vec<Set>, AllocError>
    ensures { IfOk result (λ sets. AreSetsOf facts.now.sets sets.items) }
{
    let mut sets = Vec::new(alloc);
    for sites in facts.all() {
        sets.push(set_of(alloc, sites.as_slice())?)?;
    }
    Ok(sets)
}
