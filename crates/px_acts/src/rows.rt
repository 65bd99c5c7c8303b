//! Result sets.
ghost use Rattle.std.specs.Prelude.{◌≡◌, ℕ, [], ◌∷◌, pos, IfOk, OnErr};
ghost use Rattle.px_value.specs.declared.value.Value.TheVariants.{Int};
ghost use Rattle.px_value.specs.declared.answer.Answer.TheVariants.{Rows};
ghost use Rattle.px_effects.specs.Act.{acted, Comes};
ghost use Rattle.px_effects.specs.Cells.{Fresh, first_cells};
ghost use Rattle.px_effects.specs.Rows as mean;
ghost use Rattle.px_normal.specs.First.{statements_of};
ghost use Rattle.px_acts.specs.Ends.{Ends, Writes, Makes};

use crate::cells::{Done, read_cell, reference, size_value, write_cell};
use crate::objects::allocate;
use crate::place::Cells;
use crate::standing::{cell_in, moved, standing_at};
use crate::stop::Stop;
use crate::store::Store;
use px_normal::Code;
use px_value::{Answer, Kind, Thrown, Value, Values};
use std::alloc::{AllocError, Global};

/// A value that an act came to, and the cells of a new result set that it wrote, if it did.
#[derive(Debug, Drop)]
pub struct Made {
    pub value: Value,
    pub wrote: Option<Cells>,
}

fn long_in(value: Value) -> Result<Value, Thrown>
    ensures { result ≡ mean.long_in value }
{
    match value {
        Value::Long(_) => Ok(value),
        _ => Err(Thrown::SQLException),
    }
}

fn text_in(value: Value) -> Result<Value, Thrown>
    ensures { result ≡ mean.text_in value }
{
    match value {
        Value::Text(_) => Ok(value),
        _ => Err(Thrown::SQLException),
    }
}

/// `next()`: whether there is a row where the cursor is then.
pub fn next(code: &Code, store: &mut Store, of: &Value) -> Result<Done, Stop>
    ensures acted { (fresh : Fresh) → Writes (acted (first_cells fresh) (mean.next (statements_of code.now) of.now) store.old.heap) result store.new.heap }
    ensures closed { store.new.closed ≡ store.old.closed }
    ensures kept { OnErr result (store.new.heap ≡ store.old.heap) }
{
    let object = reference(of)?;
    let place = standing_at(code, store.heap(), object);
    let moved = moved(&place);
    let wrote = write_cell(store, object, 0, size_value(moved))?;
    Ok(Done {
        value: Value::Bool(moved <= place.rows),
        wrote,
    })
}

/// `getLong(i)`: the value of a column that is a long.
pub fn get_long(
    alloc: Global,
    code: &Code,
    store: &Store,
    of: &Value,
    index: &Value,
) -> Result<Value, Stop>
    ensures { (fresh : Fresh) → Ends (acted (first_cells fresh) (mean.get_column (statements_of code.now) mean.long_in of.now index.now) store.now.heap) result store.now.heap }
{
    let object = reference(of)?;
    let place = standing_at(code, store.heap(), object);
    let cell = cell_in(&place, index)?;
    let value = read_cell(alloc, store.heap(), object, cell)?;
    Ok(long_in(value)?)
}

/// `getString(i)`: the value of a column that is a text.
pub fn get_string(
    alloc: Global,
    code: &Code,
    store: &Store,
    of: &Value,
    index: &Value,
) -> Result<Value, Stop>
    ensures { (fresh : Fresh) → Ends (acted (first_cells fresh) (mean.get_column (statements_of code.now) mean.text_in of.now index.now) store.now.heap) result store.now.heap }
{
    let object = reference(of)?;
    let place = standing_at(code, store.heap(), object);
    let cell = cell_in(&place, index)?;
    let value = read_cell(alloc, store.heap(), object, cell)?;
    Ok(text_in(value)?)
}

/// How many rows were changed; a key that is there refuses a row.
pub fn changed(answer: &Answer) -> Result<Value, Thrown>
    ensures { mean.changed answer.now ≡ Comes result }
{
    match answer {
        Answer::Count(count) => Ok(size_value(*count as usize)),
        Answer::Refused => Err(Thrown::SQLException),
        Answer::Rows { width: _, cells: _ } => Ok(Value::Null),
    }
}

// A cursor before the first row, and then the cells.
fn with_cursor(alloc: Global, cells: &[Value]) -> Result<Values, AllocError>
    ensures { IfOk result (λ values. values ≡ Int (pos 0) ∷ cells.now) }
{
    let mut values = Values::new(alloc);
    values.push(Value::Int(0))?;
    for cell in cells {
        values.push(cell.copy(alloc)?)?;
    }
    Ok(values)
}

// The rows as an object, whose values are written behind its cursor.
fn rows_object(
    alloc: Global,
    store: &mut Store,
    number: u16,
    site: u16,
    cells: &[Value],
) -> Result<Made, Stop>
    ensures acted { (fresh : Fresh) (width : ℕ) → Makes (acted (first_cells fresh) (mean.make_rows number site (Rows width cells.now)) store.old.heap) result store.new.heap }
    ensures closed { store.new.closed ≡ store.old.closed }
    ensures kept { OnErr result (store.new.heap ≡ store.old.heap) }
{
    let object = store.heap().len();
    let all = with_cursor(alloc, cells)?;
    let value = allocate(store, Kind::Rows(number), site, all)?;
    Ok(Made {
        value,
        wrote: Some(Cells {
            object,
            count: cells.len(),
        }),
    })
}

/// The rows of an answer, as an object.
pub fn make_rows(
    alloc: Global,
    store: &mut Store,
    number: u16,
    site: u16,
    answer: &Answer,
) -> Result<Made, Stop>
    ensures acted { (fresh : Fresh) → Makes (acted (first_cells fresh) (mean.make_rows number site answer.now) store.old.heap) result store.new.heap }
    ensures closed { store.new.closed ≡ store.old.closed }
    ensures kept { OnErr result (store.new.heap ≡ store.old.heap) }
{
    match answer {
        Answer::Rows { width: _, cells } => {
            rows_object(alloc, store, number, site, cells.as_slice())
        }
        _ => Ok(Made {
            value: Value::Null,
            wrote: None,
        }),
    }
}
