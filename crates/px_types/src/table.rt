//! What names are declared as.
ghost use Rattle.std.specs.Prelude.{◌≡◌, not, take, IfOk};
ghost use Rattle.std.specs.Option.{option_copied};
ghost use Rattle.px_types.specs.Names as names;

use crate::names::Names;
use crate::values::Values;
use std::alloc::{AllocError, Global};

/// Different names, in the order of their declarations, and a value for each.
#[derive(Drop)]
pub struct Table<V> {
    pub names: Names,
    pub values: Values<V>,
}

impl<V: Drop> Table<V> {
    pub fn new(alloc: Global) -> Table<V>
        ensures { result ≡ names.empty }
    {
        Table {
            names: Names::new(alloc),
            values: Values::new(alloc),
        }
    }

    /// Whether the name was declared before. Then its value stays.
    pub fn declare(&mut self, alloc: Global, name: &[u8], value: V) -> Result<bool, AllocError>
        ensures again { IfOk result (λ again. again ≡ names.has_name name.now self.old.names) }
        ensures table { IfOk result (λ again. self.new ≡ names.declare name.now value self.old) }
    {
        let added = self.names.add(alloc, name)?;
        if added {
            self.values.push(value)?;
        }
        Ok(!added)
    }

    pub fn find(&self, name: &[u8]) -> Option<&V>
        ensures { option_copied result ≡ names.find name.now self.now }
    {
        match self.names.place(name) {
            Some(place) => self.values.get(place),
            None => None,
        }
    }
}
