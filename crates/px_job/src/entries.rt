//! The entries of a program, by name.

ghost use Rattle.std.specs.Prelude.{◌≡◌, IfOk};
ghost use Rattle.px_job.specs.Places.{place_of, ArePlaces};

use crate::places::Places;
use px_facts::Entry;
use std::alloc::{AllocError, Global};

/// The entries of a program, found by their names.
#[derive(Drop)]
pub(crate) struct Entries<'a> {
    pub(crate) list: &'a [Entry],
    places: Places<'a>,
    ghost found: { ArePlaces places.map list.now },
}

impl<'a> Entries<'a> {
    pub(crate) fn new(alloc: Global, list: &'a [Entry]) -> Result<Entries<'a>, AllocError>
        ensures { IfOk result (λ entries. entries.list.now ≡ list.now) }
    {
        let places = places_of(alloc, list)?;
        Ok(Entries { list, places })
    }

    /// The place of the first entry of a name.
    pub(crate) fn find(&self, name: &[u8]) -> Option<usize>
        ensures { result ≡ place_of name.now self.now.list.now }
    {
        self.places.get(name)
    }
}

// From the last entry to the first, so that of each name the first stays.
fn places_of(alloc: Global, entries: &[Entry]) -> Result<Places<'_>, AllocError>
    ensures { IfOk result (λ places. ArePlaces places.map entries.now) }
{
    let mut places = Places::new(alloc);
    let mut place = entries.len();
    while place > 0 {
        place -= 1;
        places.put(entries[place].name.as_slice(), place)?;
    }
    Ok(places)
}
