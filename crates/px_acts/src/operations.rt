//! What operations on tables send.
ghost use Rattle.std.specs.Prelude.{◌≡◌, IfOk};
ghost use Rattle.std.specs.List.{list_any};
ghost use Rattle.px_effects.specs.Operations as sends;

use px_value::{MAX_PARAMETER, MAX_TEXTS, Statement, Thrown, Value, Values};
use sqlite_items::Items;
use std::alloc::{AllocError, Global};

fn is_null(value: &Value) -> bool
    ensures { result ≡ sends.is_null value.now }
{
    matches!(value, Value::Null)
}

fn has_null(values: &[Value]) -> bool
    ensures { result ≡ list_any sends.is_null values.now }
{
    for value in values {
        if is_null(value) {
            return true;
        }
    }
    false
}

fn text_size(value: &Value) -> usize
    ensures { result ≡ sends.text_size value.now }
{
    match value {
        Value::Text(bytes) => bytes.as_slice().len(),
        _ => 0,
    }
}

fn are_short(values: &[Value]) -> bool
    ensures { result ≡ sends.are_short values.now }
{
    let mut total: usize = 0;
    for value in values {
        let size = text_size(value);
        if size > MAX_PARAMETER {
            return false;
        }
        if size > MAX_TEXTS - total {
            return false;
        }
        total += size;
    }
    true
}

/// The parameters that are sent: a null is looked for first.
pub fn sent(values: Values) -> Result<Values, Thrown>
    ensures { result ≡ sends.sent values }
{
    if has_null(values.as_slice()) {
        Err(Thrown::SQLException)
    } else if are_short(values.as_slice()) {
        Ok(values)
    } else {
        Err(Thrown::TextTooLong)
    }
}

pub fn copy_statement(alloc: Global, statement: &Statement) -> Result<Statement, AllocError>
    ensures { IfOk result (λ s. s ≡ statement.now) }
{
    match statement {
        Statement::ByKey { table, columns } => Ok(Statement::ByKey {
            table: *table,
            columns: Items::from_slice(alloc, columns.as_slice())?,
        }),
        Statement::ByColumn {
            table,
            columns,
            column,
        } => Ok(Statement::ByColumn {
            table: *table,
            columns: Items::from_slice(alloc, columns.as_slice())?,
            column: *column,
        }),
        Statement::All { table, columns } => Ok(Statement::All {
            table: *table,
            columns: Items::from_slice(alloc, columns.as_slice())?,
        }),
        Statement::Update { table, columns } => Ok(Statement::Update {
            table: *table,
            columns: Items::from_slice(alloc, columns.as_slice())?,
        }),
        Statement::Insert { table } => Ok(Statement::Insert { table: *table }),
        Statement::Delete { table } => Ok(Statement::Delete { table: *table }),
    }
}
