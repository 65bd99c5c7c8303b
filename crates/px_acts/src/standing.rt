//! Where a result set stands, and its columns.
ghost use Rattle.std.specs.Prelude.{◌≡◌, length, pos, slice_get, unwrap_or};
ghost use Rattle.std.specs.Option.{option_copied};
ghost use Rattle.px_value.specs.declared.value.Value.TheVariants.{Null};
ghost use Rattle.px_effects.specs.Act.{value_at, header_at};
ghost use Rattle.px_effects.specs.Cells.{length_in};
ghost use Rattle.px_effects.specs.Rows as mean;
ghost use Rattle.px_normal.specs.First.{statements_of};
ghost use Rattle.px_acts.specs.Standings.{told};
ghost use Rattle.px_acts.specs.Ends.{Comes};

use crate::stop::Stop;
use px_normal::Code;
use px_value::{Heap, Kind, Object, Statement, Thrown, Value};
use sqlite_items::at;

/// How many columns and rows a result set has, and its cursor, which is 0 before the first row.
#[derive(Clone, Copy)]
pub struct Standing {
    pub width: usize,
    pub rows: usize,
    pub cursor: u32,
}

/// A statement of the program, by its number from 1.
pub fn statement_at(code: &Code, number: u16) -> Option<&Statement>
    ensures { option_copied result ≡ statements_of code.now number }
{
    if number == 0 {
        return None;
    }
    at(code.statements.as_slice(), usize::from(number) - 1)
}

// How many columns a statement selects.
fn selected(statement: &Statement) -> usize
    ensures { result ≡ mean.selected statement.now }
{
    match statement {
        Statement::ByKey { table: _, columns } => columns.len(),
        Statement::ByColumn {
            table: _,
            columns,
            column: _,
        } => columns.len(),
        Statement::All { table: _, columns } => columns.len(),
        _ => 0,
    }
}

fn width_in(code: &Code, number: u16) -> usize
    ensures { result ≡ mean.width_in (statements_of code.now number) }
{
    match statement_at(code, number) {
        Some(statement) => selected(statement),
        None => 0,
    }
}

fn width_of(code: &Code, kind: Kind) -> usize
    ensures { result ≡ mean.width_of (statements_of code.now) kind }
{
    match kind {
        Kind::Rows(number) => width_in(code, number),
        _ => 0,
    }
}

fn cursor_at(place: i32) -> u32
    ensures { result ≡ mean.cursor_in (Value.Int place) }
{
    if place < 0 { 0 } else { place.cast_unsigned() }
}

fn cursor_in(value: Option<&Value>) -> u32
    ensures { result ≡ mean.cursor_in (unwrap_or (option_copied value.entry) Null) }
{
    match value {
        Some(Value::Int(place)) => cursor_at(*place),
        _ => 0,
    }
}

// So many cells are in rows of so many.
fn rows_among(cells: usize, width: usize) -> usize
    ensures { result ≡ mean.rows_among cells width }
{
    if width == 0 || cells == 0 {
        0
    } else {
        (cells - 1) / width
    }
}

fn standing_of(code: &Code, object: &Object) -> Standing
    ensures { told result ≡ mean.standing (mean.width_of (statements_of code.now) object.now.header.kind) (length object.now.cells) (unwrap_or (slice_get object.now.cells 0) Null) }
{
    let width = width_of(code, object.header.kind);
    Standing {
        width,
        rows: rows_among(object.cells.len(), width),
        cursor: cursor_in(object.cells.get(0)),
    }
}

/// Where the result set at this place stands.
pub fn standing_at(code: &Code, heap: &Heap, object: u32) -> Standing
    ensures { told result ≡ mean.standing (mean.width_at (statements_of code.now) (header_at heap.now object)) (length_in (header_at heap.now object)) (value_at heap.now object 0) }
{
    match at(heap.as_slice(), object as usize) {
        Some(object) => standing_of(code, object),
        None => Standing {
            width: 0,
            rows: 0,
            cursor: 0,
        },
    }
}

/// The row that comes next, and no further than one behind the last.
pub fn moved(place: &Standing) -> usize
    ensures { result ≡ mean.moved (told place.now) }
{
    let cursor = place.cursor as usize;
    if cursor <= place.rows {
        cursor + 1
    } else {
        place.rows + 1
    }
}

fn is_on_row(place: &Standing) -> bool
    ensures { result ≡ mean.is_on_row (told place.now) }
{
    1 <= place.cursor && place.cursor as usize <= place.rows
}

// The cell of a column in the row of the cursor.
fn cell_of(place: &Standing, column: usize) -> Result<u32, Stop>
    ensures { Comes result (mean.cell_in (told place.now) (Value.Int (pos column))) }
{
    if !is_on_row(place) {
        return Err(Stop::Threw(Thrown::SQLException));
    }
    if column < 1 || column > place.width {
        return Err(Stop::Threw(Thrown::SQLException));
    }
    let before = (place.cursor as usize - 1).saturating_mul(place.width);
    match u32::try_from(before.saturating_add(column)) {
        Ok(cell) => Ok(cell),
        // No heap has so many cells.
        Err(_) => Err(Stop::NoMemory),
    }
}

fn cell_at(place: &Standing, column: i32) -> Result<u32, Stop>
    ensures { Comes result (mean.cell_in (told place.now) (Value.Int column)) }
{
    if column < 0 {
        return Err(Stop::Threw(Thrown::SQLException));
    }
    cell_of(place, column.cast_unsigned() as usize)
}

/// The cell of a column, which are numbered from 1, in the row of the cursor.
pub fn cell_in(place: &Standing, index: &Value) -> Result<u32, Stop>
    ensures { Comes result (mean.cell_in (told place.now) index.now) }
{
    match index {
        Value::Int(column) => cell_at(place, *column),
        _ => Err(Stop::Threw(Thrown::SQLException)),
    }
}
