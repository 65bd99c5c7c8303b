//! The slots of locals.
ghost use Rattle.std.specs.Prelude.{◌≡◌, take, OnOk, IfOk};
ghost use Rattle.std.specs.Option.{option_copied};
ghost use Rattle.px_types.specs.Slots as slots;

use crate::numbers::narrow;
use crate::table::Table;
use px_facts::Ty;
use sqlite_items::Items;
use std::alloc::{AllocError, Global};

/// A parameter or a local.
#[derive(Clone, Copy, Debug)]
pub struct Slot {
    pub ty: Ty,
    pub number: u16,
}

/// The locals in scope, and the types of the method's slots so far.
#[derive(Drop)]
pub struct Scope {
    pub locals: Table<Slot>,
    pub slots: Items<Ty>,
}

impl Scope {
    /// The scope in which a method of the class stands.
    pub fn new(alloc: Global, this: usize) -> Result<Scope, AllocError>
        ensures { IfOk result (λ scope. scope ≡ slots.first_scope this) }
    {
        let mut types = Items::new(alloc);
        types.push(Ty::Object(this))?;
        Ok(Scope {
            locals: Table::new(alloc),
            slots: types,
        })
    }

    /// The slot that the next local has.
    pub fn next(&self, ty: Ty) -> Result<Slot, AllocError>
        ensures { IfOk result (λ slot. slot ≡ slots.next_slot ty self.now) }
    {
        let number = narrow(self.slots.len())?;
        Ok(Slot { ty, number })
    }

    pub fn declare(&mut self, alloc: Global, name: &[u8], ty: Ty) -> Result<(), AllocError>
        ensures { OnOk result (self.new ≡ slots.with_slot name.now ty self.old) }
    {
        let slot = self.next(ty)?;
        self.locals.declare(alloc, name, slot)?;
        self.slots.push(ty)?;
        Ok(())
    }

    pub fn find(&self, name: &[u8]) -> Option<Slot>
        ensures { result ≡ slots.slot_of name.now self.now }
    {
        self.locals.find(name).copied()
    }

    /// Ends a scope before which as many locals were in scope.
    pub fn leave(&mut self, count: usize)
        ensures { self.new ≡ slots.left count self.old }
    {
        self.locals.names.truncate(count);
        self.locals.values.truncate(count);
    }
}
