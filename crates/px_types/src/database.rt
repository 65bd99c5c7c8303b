//! Calls of `Db`.
ghost use Rattle.std.specs.Prelude.{◌≡◌, map, slice_index_or, IfOk};
ghost use Rattle.std.specs.Option.{option_copied};
ghost use Rattle.px_facts.specs.declared.types.Ty as Ty;
ghost use Rattle.px_types.specs.Database as specs;

use px_facts::{Operation, Ty, fits};
use px_sql::{is_select, parameters, read_statement};
use px_tree::{Expr, ExprForm, Name};
use px_value::{ColumnType, Schema, Statement};
use sqlite_items::Items;
use std::alloc::{AllocError, Global};

/// A method of `Db`.
#[derive(Clone, Copy, Debug, PartialEq, Eq)]
pub enum Verb {
    Query,
    Update,
}

/// What a call of a method of this name asks for, where its receiver is the bare name `Db`.
pub fn asked(of: &Expr, name: &Name) -> Option<Verb>
    ensures { result ≡ specs.asked (specs.written of.now) name.now.bytes }
{
    match &of.form {
        ExprForm::Name(of) if of.bytes.as_slice() == "Db".as_bytes() => {
            verb_of(name.bytes.as_slice())
        }
        _ => None,
    }
}

/// The bytes of a string literal that isn't in brackets.
pub fn literal(e: &Expr) -> Option<&[u8]>
    ensures { option_copied result ≡ specs.literal_in (specs.written e.now) }
{
    match &e.form {
        ExprForm::Str(bytes) => Some(bytes.as_slice()),
        _ => None,
    }
}

/// The text of a call of `Db` with these arguments.
pub fn first_literal(args: &[Expr]) -> Option<&[u8]>
    ensures { option_copied result ≡ specs.literal_in (specs.first_written args.now) }
{
    match args {
        [text, ..] => literal(text),
        [] => None,
    }
}

fn verb_of(name: &[u8]) -> Option<Verb>
    ensures { result ≡ specs.verb_of name.now }
{
    if name == "query".as_bytes() {
        Some(Verb::Query)
    } else if name == "update".as_bytes() {
        Some(Verb::Update)
    } else {
        None
    }
}

pub fn verb_type(verb: Verb) -> Ty
    ensures { result ≡ specs.verb_type verb }
{
    match verb {
        Verb::Query => Ty::ResultSet,
        Verb::Update => Ty::Int,
    }
}

fn if_fitting(verb: Verb, statement: Option<Statement>) -> Option<Statement>
    ensures { result ≡ specs.if_fitting verb statement }
{
    match statement {
        Some(statement) if fits_verb(verb, &statement) => Some(statement),
        _ => None,
    }
}

fn fits_verb(verb: Verb, statement: &Statement) -> bool
    ensures { result ≡ specs.fits_verb verb statement.now }
{
    match verb {
        Verb::Query => is_select(statement),
        Verb::Update => !is_select(statement),
    }
}

/// What a text asks for, where it is one of the forms that the verb takes.
pub fn asked_operation(
    alloc: Global,
    schema: &Schema,
    verb: Verb,
    text: &[u8],
) -> Result<Option<Operation>, AllocError>
    ensures { IfOk result (λ operation. operation ≡ specs.asked_operation schema.now verb text.now) }
{
    let statement = read_statement(alloc, schema, text)?;
    match if_fitting(verb, statement) {
        Some(statement) => Ok(Some(operation_of(alloc, schema, statement)?)),
        None => Ok(None),
    }
}

fn operation_of(
    alloc: Global,
    schema: &Schema,
    statement: Statement,
) -> Result<Operation, AllocError>
    ensures { IfOk result (λ operation. operation ≡ specs.operation_of schema.now statement) }
{
    let params = param_types(alloc, schema, &statement)?;
    Ok(Operation { statement, params })
}

fn param_types(
    alloc: Global,
    schema: &Schema,
    statement: &Statement,
) -> Result<Items<Ty>, AllocError>
    ensures { IfOk result (λ types. types ≡ (specs.operation_of schema.now statement.now).params) }
{
    let columns = parameters(alloc, schema, statement)?;
    column_types(alloc, columns.as_slice())
}

fn column_types(alloc: Global, columns: &[ColumnType]) -> Result<Items<Ty>, AllocError>
    ensures { IfOk result (λ types. types ≡ map specs.column_type columns.now) }
{
    let mut types = Items::new(alloc);
    for column in columns {
        types.push(column_type(*column))?;
    }
    Ok(types)
}

fn column_type(column: ColumnType) -> Ty
    ensures { result ≡ specs.column_type column }
{
    match column {
        ColumnType::Long => Ty::Long,
        ColumnType::Text => Ty::Text,
    }
}

/// Whether there are as many values as parameters, each of a fitting type.
pub fn all_fit(params: &[Ty], types: &[Ty]) -> bool
    ensures { result ≡ specs.all_fit params.now types.now }
{
    params.len() == types.len() && each_fits(params, types)
}

fn each_fits(params: &[Ty], types: &[Ty]) -> bool
    ensures { result ≡ specs.each_fits params.now 0 types.now }
{
    let mut place: usize = 0;
    for ty in types {
        if !fits(wanted_at(params, place), *ty) {
            return false;
        }
        place += 1;
    }
    true
}

/// The type that is wanted of the value at a place; where there is none, any value fits.
pub fn wanted_at(wanted: &[Ty], place: usize) -> Ty
    ensures { result ≡ slice_index_or wanted.now place Ty.Unknown }
{
    match wanted.get(place) {
        Some(ty) => *ty,
        None => Ty::Unknown,
    }
}
