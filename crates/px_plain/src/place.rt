//! Result sets.
ghost use Rattle.std.specs.Prelude.{◌≡◌, length, pos, slice_get, unwrap_or};
ghost use Rattle.std.specs.Option.{option_copied};
ghost use Rattle.px_value.specs.declared.value.Value.TheVariants.{Null};
ghost use Rattle.px_effects.specs.Rows as mean;
ghost use Rattle.px_mean.specs.Effects as effects;
ghost use Rattle.px_mean.specs.Effects.{statements_of};
ghost use Rattle.px_plain.specs.Effects.{standing_at, row_reached, column_value};
ghost use Rattle.px_plain.specs.Place.{told_place, Finds};
ghost use Rattle.px_plain.specs.View.{shared_of, Ends, Keeps, IfKept};

use crate::effects::{reference, size_value};
use crate::facts::operation_at;
use crate::machine::Machine;
use crate::stop::Stop;
use px_facts::Facts;
use px_value::{Kind, Object, Statement, Thrown, Value};
use sqlite_items::at;
use std::alloc::Global;

/// Where a result set stands: how many columns and rows it has, and its cursor, which is 0 before the first row.
#[derive(Clone, Copy)]
pub struct Place {
    pub width: usize,
    pub rows: usize,
    pub cursor: u32,
}

// How many columns a statement selects.
fn selected(statement: &Statement) -> usize
    ensures { result ≡ mean.selected statement.now }
{
    match statement {
        Statement::ByKey { table: _, columns } => columns.len(),
        Statement::ByColumn {
            table: _,
            columns,
            column: _,
        } => columns.len(),
        Statement::All { table: _, columns } => columns.len(),
        _ => 0,
    }
}

fn width_in(facts: &Facts, number: u16) -> usize
    ensures { result ≡ mean.width_in (statements_of facts.now number) }
{
    match operation_at(facts, number) {
        Some(operation) => selected(&operation.statement),
        None => 0,
    }
}

fn width_of(facts: &Facts, kind: Kind) -> usize
    ensures { result ≡ mean.width_of (statements_of facts.now) kind }
{
    match kind {
        Kind::Rows(number) => width_in(facts, number),
        _ => 0,
    }
}

fn cursor_at(place: i32) -> u32
    ensures { result ≡ mean.cursor_in (Value.Int place) }
{
    if place < 0 { 0 } else { place.cast_unsigned() }
}

fn cursor_in(value: Option<&Value>) -> u32
    ensures { result ≡ mean.cursor_in (unwrap_or (option_copied value.entry) Null) }
{
    match value {
        Some(Value::Int(place)) => cursor_at(*place),
        _ => 0,
    }
}

// So many cells are in rows of so many.
fn rows_among(cells: usize, width: usize) -> usize
    ensures { result ≡ mean.rows_among cells width }
{
    if width == 0 || cells == 0 {
        0
    } else {
        (cells - 1) / width
    }
}

fn place_of(facts: &Facts, object: &Object) -> Place
    ensures { told_place result ≡ mean.standing (mean.width_of (statements_of facts.now) object.now.header.kind) (length object.now.cells) (unwrap_or (slice_get object.now.cells 0) Null) }
{
    let width = width_of(facts, object.header.kind);
    Place {
        width,
        rows: rows_among(object.cells.len(), width),
        cursor: cursor_in(object.cells.get(0)),
    }
}

// The row that comes next, and no further than one behind the last.
fn moved(place: &Place) -> usize
    ensures { result ≡ mean.moved (told_place place.now) }
{
    let cursor = place.cursor as usize;
    if cursor <= place.rows {
        cursor + 1
    } else {
        place.rows + 1
    }
}

fn is_on_row(place: &Place) -> bool
    ensures { result ≡ mean.is_on_row (told_place place.now) }
{
    1 <= place.cursor && place.cursor as usize <= place.rows
}

// The cell of a column in the row of the cursor.
fn cell_of(place: &Place, column: usize) -> Result<u32, Stop>
    ensures { Finds result (mean.cell_in (told_place place.now) (Value.Int (pos column))) }
{
    if !is_on_row(place) {
        return Err(Stop::Threw(Thrown::SQLException));
    }
    if column < 1 || column > place.width {
        return Err(Stop::Threw(Thrown::SQLException));
    }
    let before = (place.cursor as usize - 1).saturating_mul(place.width);
    match u32::try_from(before.saturating_add(column)) {
        Ok(cell) => Ok(cell),
        // No heap has so many cells.
        Err(_) => Err(Stop::NoMemory),
    }
}

fn cell_at(place: &Place, column: i32) -> Result<u32, Stop>
    ensures { Finds result (mean.cell_in (told_place place.now) (Value.Int column)) }
{
    if column < 0 {
        return Err(Stop::Threw(Thrown::SQLException));
    }
    cell_of(place, column.cast_unsigned() as usize)
}

fn cell_in(place: &Place, index: &Value) -> Result<u32, Stop>
    ensures { Finds result (mean.cell_in (told_place place.now) index.now) }
{
    match index {
        Value::Int(column) => cell_at(place, *column),
        _ => Err(Stop::Threw(Thrown::SQLException)),
    }
}

fn long_in(value: Value) -> Result<Value, Thrown>
    ensures { result ≡ mean.long_in value }
{
    match value {
        Value::Long(_) => Ok(value),
        _ => Err(Thrown::SQLException),
    }
}

fn text_in(value: Value) -> Result<Value, Thrown>
    ensures { result ≡ mean.text_in value }
{
    match value {
        Value::Text(_) => Ok(value),
        _ => Err(Thrown::SQLException),
    }
}

impl Machine {
    fn place_at(&self, facts: &Facts, object: u32) -> Place
        ensures { told_place result ≡ standing_at (statements_of facts.now) self.now.store.heap object }
    {
        match at(self.store.heap.as_slice(), object as usize) {
            Some(object) => place_of(facts, object),
            None => Place {
                width: 0,
                rows: 0,
                cursor: 0,
            },
        }
    }

    fn move_on(&mut self, facts: &Facts, object: u32) -> Result<Value, Stop>
        ensures ends { Ends (shared_of self.new) result (row_reached (statements_of facts.now) object (shared_of self.old)) }
        ensures kept { IfKept result (Keeps self.old self.new) }
        ensures turns { self.new.turns ≡ self.old.turns }
    {
        let place = self.place_at(facts, object);
        let moved = moved(&place);
        self.write_cell(object, 0, size_value(moved))?;
        Ok(Value::Bool(moved <= place.rows))
    }

    /// `next()`: whether there is a row where the cursor is then.
    #[inline(never)]
    pub fn next(&mut self, facts: &Facts, of: &Value) -> Result<Value, Stop>
        ensures ends { Ends (shared_of self.new) result (effects.next facts.now of.now (shared_of self.old)) }
        ensures kept { IfKept result (Keeps self.old self.new) }
        ensures turns { self.new.turns ≡ self.old.turns }
    {
        let object = reference(of)?;
        self.move_on(facts, object)
    }

    fn column(
        &self,
        alloc: Global,
        facts: &Facts,
        object: u32,
        index: &Value,
    ) -> Result<Value, Stop>
        ensures { Ends (shared_of self.now) result (column_value (statements_of facts.now) index.now object (shared_of self.now)) }
    {
        let place = self.place_at(facts, object);
        let cell = cell_in(&place, index)?;
        self.read_cell(alloc, object, cell)
    }

    /// `getLong(i)`: the value of a column that is a long.
    #[inline(never)]
    pub fn get_long(
        &self,
        alloc: Global,
        facts: &Facts,
        of: &Value,
        index: &Value,
    ) -> Result<Value, Stop>
        ensures { Ends (shared_of self.now) result (effects.get_long facts.now of.now index.now (shared_of self.now)) }
    {
        let object = reference(of)?;
        let value = self.column(alloc, facts, object, index)?;
        Ok(long_in(value)?)
    }

    /// `getString(i)`: the value of a column that is a text.
    #[inline(never)]
    pub fn get_string(
        &self,
        alloc: Global,
        facts: &Facts,
        of: &Value,
        index: &Value,
    ) -> Result<Value, Stop>
        ensures { Ends (shared_of self.now) result (effects.get_string facts.now of.now index.now (shared_of self.now)) }
    {
        let object = reference(of)?;
        let value = self.column(alloc, facts, object, index)?;
        Ok(text_in(value)?)
    }
}
