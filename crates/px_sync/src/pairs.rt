//! Sets of pairs.
ghost use Rattle.std.specs.Prelude.{◌≡◌, IfOk};
ghost use Rattle.px_sync.specs.Found.{ArePairs, has};

use px_flow_points::Pair;
use sqlite_items::Items;
use std::alloc::{AllocError, Global};
use std::collections::HashSet;
use std::marker::Model;

/// Pairs, seen as their list.
#[derive(Drop)]
pub struct Pairs {
    list: Items<Pair>,
    set: HashSet<Pair>,
}

impl Model for Pairs {
    ghost use Rattle.std.specs.Prelude.{List};
    ghost use Rattle.px_flow_points.specs.declared.part.Pair.{Pair};
    ghost use Rattle.px_sync.specs.Found.{ArePairs};

    ghost Value = { List Pair };

    ghost view = { λ pairs. pairs.list };

    ghost invariant = { λ pairs. ArePairs pairs.set pairs.list };
}

fn set_of(alloc: Global, pairs: &[Pair]) -> Result<HashSet<Pair>, AllocError>
    ensures { IfOk result (λ set. ArePairs set pairs.now) }
{
    let mut set = HashSet::new(alloc);
    for pair in pairs {
        set.insert(*pair)?;
    }
    Ok(set)
}

impl Pairs {
    pub fn new(alloc: Global, list: Items<Pair>) -> Result<Pairs, AllocError>
        ensures { IfOk result (λ pairs. pairs ≡ list) }
    {
        let set = set_of(alloc, list.as_slice())?;
        Ok(Pairs { list, set })
    }

    pub fn has(&self, pair: Pair) -> bool
        ensures { result ≡ has pair self.now }
    {
        self.set.contains(&pair)
    }
}
