//! The cells that a select answers.
ghost use Rattle.std.specs.Prelude.{◌≡◌, ◌++◌, map, min, length, option_to_list, OnOk, IfOk};
ghost use Rattle.std.specs.Option.{option_copied};
ghost use Rattle.px_value.specs.declared.answer.Answer.TheVariants.{Rows, Count};
ghost use Rattle.px_rows.specs.Means.{column_of, first_of, cells_of, rows_with, same_value, inserted as inserted_at};

use crate::key::same;
use px_value::{Answer, Value, Values};
use std::alloc::{AllocError, Global};

fn cell(alloc: Global, row: &Values, column: u8) -> Result<Value, AllocError>
    ensures { IfOk result (λ v. v ≡ column_of row.now column) }
{
    match row.get(usize::from(column)) {
        Some(value) => value.copy(alloc),
        None => Ok(Value::Null),
    }
}

/// Adds the cells of these columns.
pub fn push_cells(
    alloc: Global,
    columns: &[u8],
    row: &Values,
    cells: &mut Values,
) -> Result<(), AllocError>
    ensures { OnOk result (cells.new ≡ cells.old ++ map (column_of row.now) columns.now) }
{
    for column in columns {
        cells.push(cell(alloc, row, *column)?)?;
    }
    Ok(())
}

/// The cells of these columns, row by row.
pub fn cells(alloc: Global, columns: &[u8], rows: &[&Values]) -> Result<Values, AllocError>
    ensures { IfOk result (λ cells. cells ≡ cells_of columns.now (map (λ r. r.now) rows.now)) }
{
    let mut cells = Values::new(alloc);
    for row in rows {
        push_cells(alloc, columns, row, &mut cells)?;
    }
    Ok(cells)
}

fn has(row: &Values, column: u8, params: &Values) -> bool
    ensures { result ≡ same_value (column_of row.now column) (first_of params.now) }
{
    match (row.get(usize::from(column)), params.get(0)) {
        (Some(value), Some(wanted)) => same(value, wanted),
        _ => false,
    }
}

/// The cells of these columns of the rows that have the first parameter in a column.
pub fn cells_with(
    alloc: Global,
    columns: &[u8],
    rows: &[&Values],
    column: u8,
    params: &Values,
) -> Result<Values, AllocError>
    ensures { IfOk result (λ cells. cells ≡ cells_of columns.now (rows_with column (first_of params.now) (map (λ r. r.now) rows.now))) }
{
    let mut cells = Values::new(alloc);
    for row in rows {
        if has(row, column, params) {
            push_cells(alloc, columns, row, &mut cells)?;
        }
    }
    Ok(cells)
}

/// The cells of these columns of the row, if there is one.
pub fn cells_of_found(
    alloc: Global,
    columns: &[u8],
    found: Option<&Values>,
) -> Result<Values, AllocError>
    ensures { IfOk result (λ cells. cells ≡ cells_of columns.now (option_to_list (option_copied found.entry))) }
{
    let mut cells = Values::new(alloc);
    if let Some(row) = found {
        push_cells(alloc, columns, row, &mut cells)?;
    }
    Ok(cells)
}

/// What an update or a delete answers where it finds this row.
pub fn counted(found: Option<&Values>) -> Answer
    ensures { result ≡ Count (length (option_to_list (option_copied found.entry))) }
{
    match found {
        Some(_) => Answer::Count(1),
        None => Answer::Count(0),
    }
}

/// What an insert answers where it finds this row.
pub fn inserted(found: Option<&Values>) -> Answer
    ensures { result ≡ inserted_at (option_to_list (option_copied found.entry)) }
{
    match found {
        Some(_) => Answer::Refused,
        None => Answer::Count(1),
    }
}

/// An answer of rows of so many columns. No table has more than 255.
pub fn rows_of_width(columns: &[u8], cells: Values) -> Answer
    ensures { result ≡ Rows (min (length columns.now) 255) cells }
{
    Answer::Rows {
        width: columns.len().min(255) as u8,
        cells,
    }
}
