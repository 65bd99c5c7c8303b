//! Lists that may be cut back.
ghost use Rattle.std.specs.Prelude.{◌≡◌, [], ◌∷◌, ◌++◌, take, slice_get, OnOk};
ghost use Rattle.std.specs.Option.{option_copied};

use std::alloc::{AllocError, Global};
use std::marker::Model;

/// A `Vec` that contracts see as the list of its elements.
#[derive(Drop)]
pub struct Values<V> {
    items: Vec<V>,
}

impl<V> Model for Values<V> {
    ghost use Rattle.std.specs.Prelude.{List};
    ghost use Rattle.std.specs.Coded.{coded_list};

    ghost Value = { List V };

    ghost coded = { coded_list V.code };

    ghost view = { λ v. v.items.items };
}

impl<V: Drop> Values<V> {
    pub fn new(alloc: Global) -> Values<V>
        ensures { result ≡ [] }
    {
        Values {
            items: Vec::new(alloc),
        }
    }

    pub fn as_slice(&self) -> &[V]
        ensures { result.now ≡ self.now }
    {
        self.items.as_slice()
    }

    pub fn get(&self, at: usize) -> Option<&V>
        ensures { option_copied result ≡ slice_get self.now at }
    {
        self.items.get(at)
    }

    pub fn push(&mut self, value: V) -> Result<(), AllocError>
        ensures { OnOk result (self.new ≡ self.old ++ value ∷ []) }
    {
        self.items.push(value)?;
        Ok(())
    }

    /// Keeps the oldest values.
    pub fn truncate(&mut self, count: usize)
        ensures { self.new ≡ take count self.old }
    {
        self.items.truncate(count);
    }
}
