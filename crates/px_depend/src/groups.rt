//! Places by their slots.
ghost use Rattle.std.specs.Prelude.{◌≡◌, IfOk};
ghost use Rattle.px_depend.specs.Places.{AreGroups, nodes_at};

use crate::places::Place;
use sqlite_items::Items;
use std::alloc::{AllocError, Global};
use std::collections::HashMap;
use std::marker::Model;

/// Nodes by slots, seen as the places.
#[derive(Drop)]
pub struct Groups {
    places: Vec<Place>,
    nodes: HashMap<u16, Items<u32>>,
}

impl Model for Groups {
    ghost use Rattle.std.specs.Prelude.{List};
    ghost use Rattle.px_depend.specs.declared.places.Place.{Place};
    ghost use Rattle.px_depend.specs.Places.{AreGroups};

    ghost Value = { List Place };

    ghost view = { λ groups. groups.places.items };

    ghost invariant = { λ groups. AreGroups groups.nodes groups.places.items };
}

fn grouped(alloc: Global, places: &[Place]) -> Result<HashMap<u16, Items<u32>>, AllocError>
    ensures { IfOk result (λ groups. AreGroups groups places.now) }
{
    let mut groups = HashMap::new(alloc);
    for place in places {
        let mut group = groups.remove(&place.slot).unwrap_or(Items::new(alloc));
        group.push(place.node)?;
        groups.insert(place.slot, group)?;
    }
    Ok(groups)
}

impl Groups {
    pub fn new(alloc: Global, places: &[Place]) -> Result<Groups, AllocError>
        ensures { IfOk result (λ groups. groups ≡ places.now) }
    {
        let places = Vec::from_slice(alloc, places)?;
        let nodes = grouped(alloc, places.as_slice())?;
        Ok(Groups { places, nodes })
    }

    /// The nodes of a slot.
    pub fn at(&self, slot: u16) -> &[u32]
        ensures { result.now ≡ nodes_at slot self.now }
    {
        match self.nodes.get(&slot) {
            Some(nodes) => nodes.as_slice(),
            None => &[],
        }
    }
}
