//! The names of classes and members, and the rules that they break.
ghost use Rattle.std.specs.Prelude.{◌≡◌, map, IfOk, OnOk};
ghost use Rattle.px_types.specs.Members as members;
ghost use Rattle.px_types.specs.Names as names;
ghost use Rattle.px_types.specs.Programs as programs;
ghost use Rattle.px_type_rules.specs.Breaches.{after};

use crate::classes::{Classes, FieldType, Library, Members, MethodType};
use crate::members::{check_base, result_type, type_of};
use crate::names::is_reserved;
use crate::schema::copy_schema;
use crate::table::Table;
use px_facts::Ty;
use px_tree::{Access, Class, FieldDecl, Member, Method, Param};
use px_type_rules::Report;
use px_value::Schema;
use sqlite_items::{Boxed, Items};
use std::alloc::{AllocError, Global};

const MAX_CLASSES: usize = 500;

const MAX_FIELDS: usize = 200;

/// The classes of a program.
#[tactic(auto, using(crate::proofs::Notes::after_append))]
pub fn declare_classes(
    alloc: Global,
    report: &mut Report,
    schema: &Schema,
    classes: &[Class],
) -> Result<Classes, AllocError>
    ensures classes { IfOk result (λ found. found ≡ members.classes_of schema.now classes.now) }
    ensures notes { OnOk result (report.new ≡ after report.old (programs.declared_notes classes.now)) }
{
    let numbers = number_classes(alloc, report, classes)?;
    let members = declare_all(alloc, report, &numbers, classes)?;
    let library = declare_library(alloc, schema)?;
    Ok(Classes {
        numbers,
        members,
        library,
    })
}

fn declare_library(alloc: Global, schema: &Schema) -> Result<Boxed<Library>, AllocError>
    ensures { IfOk result (λ library. library ≡ members.library_of schema.now) }
{
    let library = Library {
        text: text_members(alloc)?,
        array: array_members(alloc)?,
        rows: rows_members(alloc)?,
        schema: copy_schema(alloc, schema)?,
    };
    Boxed::new(alloc, library)
}

#[tactic(auto, using(crate::proofs::Notes::after_append))]
fn number_classes(
    alloc: Global,
    report: &mut Report,
    classes: &[Class],
) -> Result<Table<usize>, AllocError>
    ensures numbers { IfOk result (λ numbers. numbers ≡ members.numbers_of classes.now) }
    ensures notes { OnOk result (report.new ≡ after report.old (programs.class_names 0 names.empty classes.now)) }
{
    let mut numbers = Table::new(alloc);
    let mut number: usize = 0;
    for class in classes {
        let again = numbers.declare(alloc, class.name.bytes.as_slice(), number)?;
        report.breach_if(again, class.name.token, 1);
        report.breach_if(
            is_reserved(class.name.bytes.as_slice()),
            class.name.token,
            18,
        );
        report.breach_if(number >= MAX_CLASSES, class.name.token, 17);
        number += 1;
    }
    Ok(numbers)
}

#[tactic(auto, using(crate::proofs::Notes::after_append))]
fn declare_all(
    alloc: Global,
    report: &mut Report,
    numbers: &Table<usize>,
    classes: &[Class],
) -> Result<Items<Members>, AllocError>
    ensures all { IfOk result (λ all. all ≡ map (members.class_members numbers.now) classes.now) }
    ensures notes { OnOk result (report.new ≡ after report.old (programs.all_members numbers.now classes.now)) }
{
    let mut all = Items::new(alloc);
    for class in classes {
        let members = declare_members(alloc, report, numbers, class.members.as_slice())?;
        all.push(members)?;
    }
    Ok(all)
}

#[tactic(auto, using(crate::proofs::Notes::after_append))]
fn declare_members(
    alloc: Global,
    report: &mut Report,
    numbers: &Table<usize>,
    declared: &[Member],
) -> Result<Members, AllocError>
    ensures members { IfOk result (λ found. found ≡ members.members_in numbers.now declared.now) }
    ensures notes { OnOk result (report.new ≡ after report.old (programs.members_notes numbers.now 0 members.no_members declared.now)) }
{
    let mut members = Members::new(alloc);
    let mut fields: usize = 0;
    for member in declared {
        match member {
            Member::Field(field) => {
                members.declare_field(alloc, report, numbers, fields, field)?;
                fields += 1;
            }
            Member::Method(method) => members.declare_method(alloc, report, numbers, method)?,
        }
    }
    Ok(members)
}

impl Members {
    fn new(alloc: Global) -> Members
        ensures { result ≡ members.no_members }
    {
        Members {
            fields: Table::new(alloc),
            methods: Table::new(alloc),
        }
    }

    // Behind as many fields.
    #[tactic(auto, using(crate::proofs::Notes::after_append))]
    fn declare_field(
        &mut self,
        alloc: Global,
        report: &mut Report,
        numbers: &Table<usize>,
        fields: usize,
        field: &FieldDecl,
    ) -> Result<(), AllocError>
        ensures members { OnOk result (self.new ≡ members.with_field numbers.now field.now self.old) }
        ensures notes { OnOk result (report.new ≡ after report.old (programs.field_names numbers.now fields self.old field.now)) }
    {
        let ty = FieldType {
            access: field.access,
            ty: type_of(numbers, &field.ty),
        };
        let again = self.fields.declare(alloc, field.name.bytes.as_slice(), ty)?;
        report.breach_if(again, field.name.token, 1);
        report.breach_if(
            is_reserved(field.name.bytes.as_slice()),
            field.name.token,
            18,
        );
        report.breach_if(fields >= MAX_FIELDS, field.name.token, 17);
        check_base(report, numbers, &field.ty.base);
        Ok(())
    }

    #[tactic(auto, using(crate::proofs::Notes::after_append))]
    fn declare_method(
        &mut self,
        alloc: Global,
        report: &mut Report,
        numbers: &Table<usize>,
        method: &Method,
    ) -> Result<(), AllocError>
        ensures members { OnOk result (self.new ≡ members.with_method numbers.now method.now self.old) }
        ensures notes { OnOk result (report.new ≡ after report.old (programs.method_names self.old method.now)) }
    {
        let ty = MethodType {
            access: method.access,
            params: param_types(alloc, numbers, method.params.as_slice())?,
            result: result_type(numbers, &method.gives),
        };
        let again = self
            .methods
            .declare(alloc, method.name.bytes.as_slice(), ty)?;
        report.declared_method(method.name.token);
        report.breach_if(again, method.name.token, 1);
        Ok(())
    }
}

pub fn param_types(
    alloc: Global,
    numbers: &Table<usize>,
    params: &[Param],
) -> Result<Items<Ty>, AllocError>
    ensures { IfOk result (λ types. types ≡ map (members.param_type numbers.now) params.now) }
{
    let mut types = Items::new(alloc);
    for param in params {
        types.push(type_of(numbers, &param.ty))?;
    }
    Ok(types)
}

fn text_members(alloc: Global) -> Result<Members, AllocError>
    ensures { IfOk result (λ found. found ≡ members.text_members) }
{
    let mut text = Members::new(alloc);
    let length = MethodType {
        access: Access::Plain,
        params: Items::new(alloc),
        result: Ty::Int,
    };
    text.methods.declare(alloc, "length".as_bytes(), length)?;
    let mut params = Items::new(alloc);
    params.push(Ty::Text)?;
    let equals = MethodType {
        access: Access::Plain,
        params,
        result: Ty::Boolean,
    };
    text.methods.declare(alloc, "equals".as_bytes(), equals)?;
    Ok(text)
}

fn array_members(alloc: Global) -> Result<Members, AllocError>
    ensures { IfOk result (λ found. found ≡ members.array_members) }
{
    let mut array = Members::new(alloc);
    let length = FieldType {
        access: Access::Plain,
        ty: Ty::Int,
    };
    array.fields.declare(alloc, "length".as_bytes(), length)?;
    Ok(array)
}

fn rows_members(alloc: Global) -> Result<Members, AllocError>
    ensures { IfOk result (λ found. found ≡ members.rows_members) }
{
    let mut rows = Members::new(alloc);
    let next = MethodType {
        access: Access::Plain,
        params: Items::new(alloc),
        result: Ty::Boolean,
    };
    rows.methods.declare(alloc, "next".as_bytes(), next)?;
    let get_long = column_method(alloc, Ty::Long)?;
    rows.methods.declare(alloc, "getLong".as_bytes(), get_long)?;
    let get_string = column_method(alloc, Ty::Text)?;
    rows.methods
        .declare(alloc, "getString".as_bytes(), get_string)?;
    Ok(rows)
}

// A method that takes the number of a column.
fn column_method(alloc: Global, gives: Ty) -> Result<MethodType, AllocError>
    ensures { IfOk result (λ found. found ≡ members.column_method gives) }
{
    let mut params = Items::new(alloc);
    params.push(Ty::Int)?;
    Ok(MethodType {
        access: Access::Plain,
        params,
        result: gives,
    })
}
