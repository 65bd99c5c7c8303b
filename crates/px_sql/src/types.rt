//! The parameters of a statement.
ghost use Rattle.std.specs.Prelude.{◌≡◌, ◌++◌, ◌∷◌, [], List, length, take, drop, map, IfOk};
ghost use Rattle.px_sql.specs.Parameters as p;

use crate::names::columns_of;
use px_value::{Column, ColumnType, Schema, Statement};
use sqlite_items::{Items, at};
use std::alloc::{AllocError, Global};

/// Whether it answers rows.
pub fn is_select(statement: &Statement) -> bool
    ensures { result ≡ p.is_select statement.now }
{
    matches!(
        statement,
        Statement::ByKey { .. } | Statement::ByColumn { .. } | Statement::All { .. }
    )
}

/// The types of the parameters, in order. A column that isn't there counts as one of longs.
pub fn parameters(
    alloc: Global,
    schema: &Schema,
    statement: &Statement,
) -> Result<Items<ColumnType>, AllocError>
    ensures { IfOk result (λ types. types ≡ p.parameters schema.now statement.now) }
{
    match statement {
        Statement::ByKey { table, .. } | Statement::Delete { table } => {
            one(alloc, columns_of(schema, *table), 0)
        }
        Statement::ByColumn { table, column, .. } => {
            one(alloc, columns_of(schema, *table), *column)
        }
        Statement::All { .. } => Ok(Items::new(alloc)),
        Statement::Update { table, columns } => {
            assigned(alloc, columns_of(schema, *table), columns.as_slice())
        }
        Statement::Insert { table } => types_of(alloc, columns_of(schema, *table)),
    }
}

fn type_at(columns: &[Column], column: u8) -> ColumnType
    ensures { result ≡ p.type_at columns.now column }
{
    match at(columns, column as usize) {
        Some(column) => column.ty,
        None => ColumnType::Long,
    }
}

fn one(alloc: Global, columns: &[Column], column: u8) -> Result<Items<ColumnType>, AllocError>
    ensures { IfOk result (λ types. types ≡ p.type_at columns.now column ∷ []) }
{
    let mut types = Items::new(alloc);
    types.push(type_at(columns, column))?;
    Ok(types)
}

fn assigned(
    alloc: Global,
    columns: &[Column],
    places: &[u8],
) -> Result<Items<ColumnType>, AllocError>
    ensures { IfOk result (λ types. types ≡ map (p.type_at columns.now) places.now ++ p.type_at columns.now 0 ∷ []) }
{
    let mut types = Items::new(alloc);
    for place in places {
        types.push(type_at(columns, *place))?;
    }
    types.push(type_at(columns, 0))?;
    Ok(types)
}

fn types_of(alloc: Global, columns: &[Column]) -> Result<Items<ColumnType>, AllocError>
    ensures { IfOk result (λ types. types ≡ map (λ c. c.ty) columns.now) }
{
    let mut types = Items::new(alloc);
    for column in columns {
        types.push(column.ty)?;
    }
    Ok(types)
}
