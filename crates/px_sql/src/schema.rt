//! The tables of a program.
ghost use Rattle.std.specs.Prelude.{◌≡◌, ◌≤◌, ◌<◌, ◌+◌, ◌++◌, ◌∷◌, [], List, length, take, drop, map, IfOk, OnOk};
ghost use Rattle.std.specs.List.{list_any};
ghost use Rattle.std.specs.Str.{bytes_eq};
ghost use Rattle.px_sql.specs.Tables.{column_of, table_of, type_of, has_table, has_column, differ, is_long_first, is_table, keeps_rule, breach_from, schema_of, IsRead, IsSchema, is_small, are_narrow};
ghost use Rattle.px_sql.specs.declared.schema.SchemaError.TheVariants.{NoMemory};

use px_tree::{Column as ColumnDecl, TableDecl};
use px_value::{Column, ColumnType, Schema, Table, Text};
use sqlite_items::Items;
use std::alloc::{AllocError, AllocFailed, Global};
use thiserror::Error;

/// The most tables of a program.
const MAX_TABLES: usize = 100;

/// The most columns of a table.
const MAX_COLUMNS: usize = 16;

#[derive(Clone, Copy, Debug, PartialEq, Eq, Error)]
pub enum SchemaError {
    #[error("out of memory")]
    NoMemory,
    /// The declaration is the first that breaks the rule of tables.
    #[error("table {index} breaks the rule of tables")]
    BadTable { index: u32 },
}

impl From<AllocError> for SchemaError {
    ghost from_gives = { λ _ e. e ≡ NoMemory };

    fn from(_: AllocError) -> Self {
        SchemaError::NoMemory
    }
}

impl<T: Drop> From<AllocFailed<T>> for SchemaError {
    ghost from_gives = { λ _ e. e ≡ NoMemory };

    fn from(_: AllocFailed<T>) -> Self {
        SchemaError::NoMemory
    }
}

/// The tables in the order of their declarations.
pub fn read_schema(alloc: Global, tables: &[TableDecl]) -> Result<Schema, SchemaError>
    ensures read { IsRead result (schema_of tables.now) }
    ensures kept { IfOk result (λ schema. IsSchema schema) }
{
    read_tables(alloc, tables)
}

fn read_tables(alloc: Global, tables: &[TableDecl]) -> Result<Schema, SchemaError>
    ensures { IsRead result (schema_of tables.now) }
{
    let mut read = Items::new(alloc);
    for declared in tables {
        let table = read_table(alloc, declared)?;
        if !keeps_rule(read.as_slice(), &table) {
            let index = read.len() as u32;
            return Err(SchemaError::BadTable { index });
        }
        read.push(table)?;
    }
    Ok(Schema { tables: read })
}

fn read_table(alloc: Global, table: &TableDecl) -> Result<Table, AllocError>
    ensures { IfOk result (λ read. read ≡ table_of table.now) }
{
    let columns = read_columns(alloc, table.columns.as_slice())?;
    let name = text_of(alloc, table.name.bytes.as_slice())?;
    Ok(Table { name, columns })
}

fn read_columns(alloc: Global, columns: &[ColumnDecl]) -> Result<Items<Column>, AllocError>
    ensures { IfOk result (λ read. read ≡ map column_of columns.now) }
{
    let mut read = Items::new(alloc);
    for column in columns {
        let name = text_of(alloc, column.name.bytes.as_slice())?;
        let ty = type_of(column.text);
        read.push(Column { name, ty })?;
    }
    Ok(read)
}

fn text_of(alloc: Global, bytes: &[u8]) -> Result<Text, AllocError>
    ensures { IfOk result (λ text. text ≡ bytes.now) }
{
    Ok(Text::from_vec(bytes.to_vec(alloc)?))
}

fn type_of(text: bool) -> ColumnType
    ensures { result ≡ type_of text }
{
    if text {
        ColumnType::Text
    } else {
        ColumnType::Long
    }
}

// Whether a table keeps the rule behind those before it.
fn keeps_rule(before: &[Table], table: &Table) -> bool
    ensures { result ≡ keeps_rule before.now table.now }
{
    before.len() < MAX_TABLES
        && !has_table(table.name.as_slice(), before)
        && is_table(table.columns.as_slice())
}

fn is_table(columns: &[Column]) -> bool
    ensures { result ≡ is_table columns.now }
{
    columns.len() <= MAX_COLUMNS && is_long_first(columns) && differ(columns)
}

fn has_table(name: &[u8], tables: &[Table]) -> bool
    ensures { result ≡ has_table name.now tables.now }
{
    tables.iter().any(|table| table.name.as_slice() == name)
}

fn has_column(name: &[u8], columns: &[Column]) -> bool
    ensures { result ≡ has_column name.now columns.now }
{
    columns.iter().any(|column| column.name.as_slice() == name)
}

fn is_long_first(columns: &[Column]) -> bool
    ensures { result ≡ is_long_first columns.now }
{
    match columns {
        [first, ..] => matches!(first.ty, ColumnType::Long),
        [] => false,
    }
}

fn differ(columns: &[Column]) -> bool
    ensures { result ≡ differ columns.now }
{
    let mut rest = columns;
    while let [column, more @ ..] = rest {
        if has_column(column.name.as_slice(), more) {
            return false;
        }
        rest = more;
    }
    true
}

/// Whether there are no more tables and columns than the rule allows.
pub(crate) fn is_small(schema: &Schema) -> bool
    ensures { result ≡ is_small schema.now }
{
    schema.tables.len() <= MAX_TABLES && are_narrow(schema.tables.as_slice())
}

fn are_narrow(tables: &[Table]) -> bool
    ensures { result ≡ are_narrow tables.now }
{
    tables
        .iter()
        .all(|table| table.columns.len() <= MAX_COLUMNS)
}
