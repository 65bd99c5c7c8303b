//! What names stand for.
ghost use Rattle.std.specs.Prelude.{◌≡◌, IfOk};
ghost use Rattle.px_types.specs.Facts as facts;
ghost use Rattle.px_types.specs.Slots.{slot_of};

use crate::database::Verb;
use crate::home::Home;
use crate::numbers::{narrow, sum};
use crate::scope::{Scope, Slot};
use px_facts::{Fact, Named, Ty};
use sqlite_items::at;
use std::alloc::AllocError;

pub fn typed_only(ty: Ty) -> Fact
    ensures { result ≡ facts.typed_only ty }
{
    Fact {
        ty,
        named: Named::Nothing,
    }
}

pub fn local_fact(slot: Slot) -> Fact
    ensures { result ≡ facts.local_fact slot.ty slot.number }
{
    Fact {
        ty: slot.ty,
        named: Named::Local(slot.number),
    }
}

/// The local that a statement changes in place.
pub fn changed_fact(scope: &Scope, name: &[u8]) -> Fact
    ensures { result ≡ facts.changed_fact (slot_of name.now scope.now) }
{
    match scope.find(name) {
        Some(slot) => local_fact(slot),
        None => typed_only(Ty::Void),
    }
}

pub fn new_array_fact(ty: Ty) -> Fact
    ensures { result ≡ facts.new_array_fact ty }
{
    Fact {
        ty,
        named: Named::NewArray { site: 0 },
    }
}

/// `Db`, before a method's name.
pub fn database_fact() -> Fact
    ensures { result ≡ facts.database_fact }
{
    Fact {
        ty: Ty::Unknown,
        named: Named::Database,
    }
}

/// A call of `Db`. Its numbers are given once all facts are known.
pub fn verb_fact(verb: Verb) -> Fact
    ensures { result ≡ facts.verb_fact verb }
{
    match verb {
        Verb::Query => Fact {
            ty: Ty::ResultSet,
            named: Named::Query { number: 0, site: 0 },
        },
        Verb::Update => Fact {
            ty: Ty::Int,
            named: Named::Update { number: 0 },
        },
    }
}

impl Home {
    /// What a bare name stands for.
    pub fn variable_fact(&self, scope: &Scope, name: &[u8]) -> Result<Fact, AllocError>
        ensures { IfOk result (λ fact. fact ≡ facts.variable_fact self.now scope.now name.now) }
    {
        match scope.find(name) {
            Some(slot) => Ok(local_fact(slot)),
            None => self.field_fact(Ty::Object(self.this), name),
        }
    }

    /// A field of a value of this type.
    pub fn field_fact(&self, of: Ty, name: &[u8]) -> Result<Fact, AllocError>
        ensures { IfOk result (λ fact. fact ≡ facts.field_fact self.now of name.now) }
    {
        let named = field_at(of, self.classes.field_place(of, name))?;
        Ok(Fact {
            ty: self.field_type(of, name),
            named,
        })
    }

    fn field_type(&self, of: Ty, name: &[u8]) -> Ty
        ensures { result ≡ (facts.field_fact self.now of name.now).ty }
    {
        match self.classes.field(of, name) {
            Some(field) => field.ty,
            None => Ty::Unknown,
        }
    }

    /// A method of a value of this type.
    pub fn method_fact(&self, of: Ty, name: &[u8]) -> Result<Fact, AllocError>
        ensures { IfOk result (λ fact. fact ≡ facts.method_fact self.now of name.now) }
    {
        let named = self.method_at(of, self.classes.method_place(of, name))?;
        Ok(Fact {
            ty: self.result_type(of, name),
            named,
        })
    }

    fn result_type(&self, of: Ty, name: &[u8]) -> Ty
        ensures { result ≡ (facts.method_fact self.now of name.now).ty }
    {
        match self.classes.method(of, name) {
            Some(method) => method.result,
            None => Ty::Unknown,
        }
    }

    fn method_at(&self, of: Ty, place: Option<usize>) -> Result<Named, AllocError>
        ensures { IfOk result (λ named. named ≡ facts.method_at self.now of place) }
    {
        match place {
            Some(place) => self.method_in(of, place),
            None => Ok(Named::Nothing),
        }
    }

    fn method_in(&self, of: Ty, place: usize) -> Result<Named, AllocError>
        ensures { IfOk result (λ named. named ≡ facts.method_in self.now of place) }
    {
        match of {
            Ty::Object(class) => numbered_method(at(self.firsts.as_slice(), class).copied(), place),
            Ty::Text => Ok(text_method(place)),
            Ty::ResultSet => Ok(rows_method(place)),
            _ => Ok(Named::Nothing),
        }
    }

    /// A `new` of a class.
    pub fn new_fact(&self, name: &[u8]) -> Result<Fact, AllocError>
        ensures { IfOk result (λ fact. fact ≡ facts.new_fact self.now name.now) }
    {
        match self.classes.numbers.find(name) {
            Some(number) => {
                let class = narrow(*number)?;
                Ok(Fact {
                    ty: Ty::Object(*number),
                    named: Named::NewObject { class, site: 0 },
                })
            }
            None => Ok(typed_only(Ty::Unknown)),
        }
    }
}

fn field_at(of: Ty, place: Option<usize>) -> Result<Named, AllocError>
    ensures { IfOk result (λ named. named ≡ facts.field_at of place) }
{
    match place {
        Some(place) => field_in(of, place),
        None => Ok(Named::Nothing),
    }
}

fn field_in(of: Ty, place: usize) -> Result<Named, AllocError>
    ensures { IfOk result (λ named. named ≡ facts.field_in of place) }
{
    match of {
        Ty::Object(class) => Ok(Named::Field {
            class: narrow(class)?,
            place: narrow(place)?,
        }),
        Ty::Array(_) => Ok(Named::ArrayLength),
        _ => Ok(Named::Nothing),
    }
}

fn numbered_method(first: Option<u16>, place: usize) -> Result<Named, AllocError>
    ensures { IfOk result (λ named. named ≡ facts.numbered_method first place) }
{
    match first {
        Some(first) => Ok(Named::Method(sum(first, place)?)),
        None => Ok(Named::Nothing),
    }
}

// A String's methods are `length` and `equals`, in this order.
fn text_method(place: usize) -> Named
    ensures { result ≡ facts.text_method place }
{
    match place {
        0 => Named::TextLength,
        _ => Named::TextEquals,
    }
}

// A result set's methods are `next`, `getLong` and `getString`, in this order.
fn rows_method(place: usize) -> Named
    ensures { result ≡ facts.rows_method place }
{
    match place {
        0 => Named::Next,
        1 => Named::GetLong,
        _ => Named::GetString,
    }
}
