//! Classes and members by name.
ghost use Rattle.std.specs.Prelude.{◌≡◌};
ghost use Rattle.std.specs.Option.{option_copied};
ghost use Rattle.px_types.specs.Members as members;
ghost use Rattle.px_types.specs.Names as names;
ghost use Rattle.px_types.specs.Facts as facts;
ghost use Rattle.px_type_rules.specs.Breaches.{after};

use crate::classes::{Classes, FieldType, Members, MethodType};
use crate::table::Table;
use px_facts::Ty;
use px_tree::{Access, Base, Name, TypeName};
use px_type_rules::Report;

pub fn class_type(numbers: &Table<usize>, name: &[u8]) -> Ty
    ensures { result ≡ members.class_type (names.find name.now numbers.now) }
{
    match numbers.find(name) {
        Some(number) => Ty::Object(*number),
        None => Ty::Unknown,
    }
}

pub fn base_type(numbers: &Table<usize>, base: &Base) -> Ty
    ensures { result ≡ members.base_type numbers.now base.now }
{
    match base {
        Base::Int => Ty::Int,
        Base::Long => Ty::Long,
        Base::Boolean => Ty::Boolean,
        Base::Str => Ty::Text,
        Base::ResultSet => Ty::ResultSet,
        Base::Class(name) => class_type(numbers, name.bytes.as_slice()),
    }
}

pub fn type_of(numbers: &Table<usize>, name: &TypeName) -> Ty
    ensures { result ≡ members.type_of numbers.now name.now }
{
    let ty = base_type(numbers, &name.base);
    if name.array { ty.array() } else { ty }
}

/// The type of a method's result.
pub fn result_type(numbers: &Table<usize>, gives: &Option<TypeName>) -> Ty
    ensures { result ≡ members.result_type numbers.now gives.now }
{
    match gives {
        Some(name) => type_of(numbers, name),
        None => Ty::Void,
    }
}

/// The name of a type is a class.
pub fn check_class(report: &mut Report, numbers: &Table<usize>, name: &Name)
    ensures { report.new ≡ after report.old (members.no_class numbers.now name.now) }
{
    let found = numbers.find(name.bytes.as_slice());
    report.breach_if(found.is_none(), name.token, 2);
}

pub fn check_base(report: &mut Report, numbers: &Table<usize>, base: &Base)
    ensures { report.new ≡ after report.old (members.names_no_class numbers.now base.now) }
{
    match base {
        Base::Class(name) => check_class(report, numbers, name),
        Base::Int | Base::Long | Base::Boolean | Base::Str | Base::ResultSet => {}
    }
}

impl Classes {
    fn members(&self, of: Ty) -> Option<&Members>
        ensures { option_copied result ≡ members.members_of of self.now }
    {
        match of {
            Ty::Object(number) => self.members.get(number),
            Ty::Text => Some(&self.library.get().text),
            Ty::Array(_) => Some(&self.library.get().array),
            Ty::ResultSet => Some(&self.library.get().rows),
            _ => None,
        }
    }

    /// The field of a type with this name.
    pub fn field(&self, of: Ty, name: &[u8]) -> Option<FieldType>
        ensures { result ≡ members.field_of of name.now self.now }
    {
        match self.members(of) {
            Some(members) => members.fields.find(name).copied(),
            None => None,
        }
    }

    /// The place of this field among those of the type, from 0.
    pub fn field_place(&self, of: Ty, name: &[u8]) -> Option<usize>
        ensures { result ≡ facts.field_place of name.now self.now }
    {
        match self.members(of) {
            Some(members) => members.fields.names.place(name),
            None => None,
        }
    }

    /// The place of this method among those of the type, from 0.
    pub fn method_place(&self, of: Ty, name: &[u8]) -> Option<usize>
        ensures { result ≡ facts.method_place of name.now self.now }
    {
        match self.members(of) {
            Some(members) => members.methods.names.place(name),
            None => None,
        }
    }

    /// The method of a type with this name.
    pub fn method(&self, of: Ty, name: &[u8]) -> Option<&MethodType>
        ensures { option_copied result ≡ members.method_of of name.now self.now }
    {
        match self.members(of) {
            Some(members) => members.methods.find(name),
            None => None,
        }
    }
}

/// A private member is used in its own class only; this is the number of the class that uses it.
pub fn check_access(report: &mut Report, of: Ty, this: usize, access: Access, name: &Name)
    ensures { report.new ≡ after report.old (members.hidden of this access name.now) }
{
    report.breach_if(is_private(access) && is_outside(of, this), name.token, 15);
}

fn is_private(access: Access) -> bool
    ensures { result ≡ members.is_private access }
{
    matches!(access, Access::Private)
}

fn is_outside(of: Ty, this: usize) -> bool
    ensures { result ≡ members.is_outside of this }
{
    match of {
        Ty::Object(number) => number != this,
        _ => true,
    }
}
