//! The objects that sends have named since control came.
ghost use Rattle.std.specs.Prelude.{◌≡◌, [], ◌∷◌, OnOk, OnErr};
ghost use Rattle.px_blocks.specs.Machine.{has_naming, with_names};
ghost use Rattle.px_control.specs.Names.{name_of, naming_of};

use indexmap::IndexSet;
use px_blocks::SendKind;
use std::alloc::{AllocError, Global};
use std::marker::Model;

/// An object that a send named, for its cells that are at home at APP, or at DB, or for all.
#[derive(Clone, Copy, Debug, PartialEq, Eq, Hash)]
pub enum Name {
    App(u32),
    Db(u32),
    Native(u32),
}

impl Name {
    pub fn new(kind: SendKind, object: u32) -> Name
        ensures { result ≡ name_of kind object }
    {
        match kind {
            SendKind::App => Name::App(object),
            SendKind::Db => Name::Db(object),
            SendKind::Native => Name::Native(object),
        }
    }
}

/// Names in their order, each once.
#[derive(Drop)]
pub struct Names {
    set: IndexSet<Name>,
}

impl Model for Names {
    ghost use Rattle.std.specs.Prelude.{List, map};
    ghost use Rattle.px_blocks.specs.declared.block.Naming.{Naming};
    ghost use Rattle.px_control.specs.Names.{naming_of};

    ghost Value = { List Naming };

    ghost view = { λ n. map naming_of n.set.keys };
}

impl Names {
    pub fn new(alloc: Global) -> Names
        ensures { result ≡ [] }
    {
        Names {
            set: IndexSet::new(alloc),
        }
    }

    pub fn has(&self, kind: SendKind, object: u32) -> bool
        ensures { result ≡ has_naming self.now kind object }
    {
        self.set.contains(&Name::new(kind, object))
    }

    /// Names an object, once in each way.
    pub fn add(&mut self, kind: SendKind, object: u32) -> Result<(), AllocError>
        ensures ok { OnOk result (self.new ≡ with_names (record { kind = kind; object = object } ∷ []) self.old) }
        ensures err { OnErr result (self.new ≡ self.old) }
    {
        self.set.insert(Name::new(kind, object))?;
        Ok(())
    }

    pub fn clear(&mut self)
        ensures { self.new ≡ [] }
    {
        self.set.clear();
    }
}
