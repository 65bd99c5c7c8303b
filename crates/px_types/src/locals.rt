//! Parameters and locals.
ghost use Rattle.std.specs.Prelude.{◌≡◌, Some, take, is_some, OnOk};
ghost use Rattle.px_types.specs.Scopes as scopes;
ghost use Rattle.px_types.specs.Names as names;
ghost use Rattle.px_type_rules.specs.Breaches.{after};

use crate::names::is_reserved;
use crate::table::Table;
use px_facts::Ty;
use px_tree::Name;
use px_type_rules::Report;
use std::alloc::{AllocError, Global};

/// The parameters and locals in scope, the oldest first.
#[derive(Drop)]
pub struct Locals {
    pub table: Table<Ty>,
    /// How many of them may be used, the oldest: a local is in scope in its own initialiser, and may not be used there.
    pub usable: usize,
}

impl Locals {
    pub fn new(alloc: Global) -> Locals
        ensures { result ≡ scopes.no_locals }
    {
        Locals {
            table: Table::new(alloc),
            usable: 0,
        }
    }

    /// Declares one that may not be used yet.
    #[tactic(auto, using(crate::proofs::Notes::after_append))]
    pub fn declare(
        &mut self,
        alloc: Global,
        report: &mut Report,
        name: &Name,
        ty: Ty,
    ) -> Result<(), AllocError>
        ensures locals { OnOk result (self.new ≡ scopes.with_local name.now ty self.old) }
        ensures notes { OnOk result (report.new ≡ after report.old (scopes.local_notes name.now self.old)) }
    {
        let again = self.table.declare(alloc, name.bytes.as_slice(), ty)?;
        report.breach_if(again, name.token, 1);
        report.breach_if(is_reserved(name.bytes.as_slice()), name.token, 18);
        Ok(())
    }

    /// All may be used from here on.
    pub fn use_all(&mut self)
        ensures { self.new ≡ scopes.all_usable self.old }
    {
        self.usable = self.table.names.len();
    }

    /// Ends a scope before which there were as many.
    pub fn truncate(&mut self, count: usize, usable: usize)
        ensures { self.new ≡ record { table = record { names = take count self.old.table.names; values = take count self.old.table.values }; usable = usable } }
    {
        self.table.names.truncate(count);
        self.table.values.truncate(count);
        self.usable = usable;
    }

    pub fn has(&self, name: &[u8]) -> bool
        ensures { result ≡ is_some (names.place_of name.now self.now.table.names) }
    {
        self.table.names.place(name).is_some()
    }

    /// The type of one that may be used.
    pub fn find(&self, name: &[u8]) -> Option<Ty>
        ensures { result ≡ scopes.local_type name.now self.now }
    {
        match self.table.names.place(name) {
            Some(place) => self.usable_at(place),
            None => None,
        }
    }

    fn usable_at(&self, place: usize) -> Option<Ty>
        ensures { result ≡ scopes.usable_type (Some place) self.now }
    {
        if place < self.usable {
            self.table.values.get(place).copied()
        } else {
            None
        }
    }
}
