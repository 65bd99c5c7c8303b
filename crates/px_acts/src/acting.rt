//! Words that are acts on the heap, with their operands.
ghost use Rattle.std.specs.Prelude.{◌≡◌, List, IfOk, OnErr};
ghost use Rattle.px_value.specs.declared.object.Object.{Object};
ghost use Rattle.px_value.specs.Operators.{apply as mean_apply};
ghost use Rattle.px_effects.specs.Act.{acted, Comes};
ghost use Rattle.px_effects.specs.Cells as cells;
ghost use Rattle.px_effects.specs.Cells.{Fresh, first_cells, comes as comes_to};
ghost use Rattle.px_effects.specs.Rows as mean;
ghost use Rattle.px_normal.specs.First.{fresh_of, statements_of};
ghost use Rattle.px_normal.specs.Words as words;
ghost use Rattle.px_acts.specs.Slots.{values_in};
ghost use Rattle.px_acts.specs.Did.{ActsAs};

use crate::came::{comes, ended, operated, written};
use crate::cells::{array_length, get_field, load, put_field, store_element};
use crate::does::Does;
use crate::frame::{Slot, operand};
use crate::objects::{make_array, make_object};
use crate::rows::{get_long, get_string, next};
use crate::store::Store;
use px_normal::{Code, Operand};
use px_ops::{Op, apply};
use std::alloc::{AllocError, Global};

/// The value of an operand.
pub fn set(alloc: Global, slots: &[Slot], value: &Operand) -> Result<Does, AllocError>
    ensures { (fresh : Fresh) (heap : List Object) → IfOk result (λ d. ActsAs (acted (first_cells fresh) (comes_to (words.operand (values_in slots.now) value.now)) heap) d heap) }
{
    let value = operand(alloc, slots, value)?;
    Ok(comes(Ok(value)))
}

/// An operator; a unary one has its operand twice.
pub fn operator(
    alloc: Global,
    slots: &[Slot],
    op: Op,
    left: &Operand,
    right: &Option<Operand>,
) -> Result<Does, AllocError>
    ensures { (fresh : Fresh) (heap : List Object) → IfOk result (λ d. ActsAs (acted (first_cells fresh) (Comes (mean_apply op (words.operand (values_in slots.now) left.now) (words.operand_or (values_in slots.now) (words.operand (values_in slots.now) left.now) right.now))) heap) d heap) }
{
    let left = operand(alloc, slots, left)?;
    match right {
        None => operated(apply(alloc, op, &left, &left)),
        Some(right) => {
            let right = operand(alloc, slots, right)?;
            operated(apply(alloc, op, &left, &right))
        }
    }
}

pub fn field(
    alloc: Global,
    store: &Store,
    slots: &[Slot],
    of: &Operand,
    field: u16,
) -> Result<Does, AllocError>
    ensures { (fresh : Fresh) → IfOk result (λ d. ActsAs (acted (first_cells fresh) (cells.get_field (words.operand (values_in slots.now) of.now) field) store.now.heap) d store.now.heap) }
{
    let of = operand(alloc, slots, of)?;
    ended(get_field(alloc, store, &of, field))
}

pub fn put(
    alloc: Global,
    store: &mut Store,
    slots: &[Slot],
    of: &Operand,
    field: u16,
    value: &Operand,
) -> Result<Does, AllocError>
    ensures acts { (fresh : Fresh) → IfOk result (λ d. ActsAs (acted (first_cells fresh) (cells.put_field (words.operand (values_in slots.now) of.now) field (words.operand (values_in slots.now) value.now)) store.old.heap) d store.new.heap) }
    ensures closed { store.new.closed ≡ store.old.closed }
    ensures kept { OnErr result (store.new.heap ≡ store.old.heap) }
{
    let of = operand(alloc, slots, of)?;
    let value = operand(alloc, slots, value)?;
    written(put_field(store, &of, field, value))
}

/// An element of an array.
pub fn element(
    alloc: Global,
    store: &Store,
    slots: &[Slot],
    of: &Operand,
    index: &Operand,
) -> Result<Does, AllocError>
    ensures { (fresh : Fresh) → IfOk result (λ d. ActsAs (acted (first_cells fresh) (cells.load (words.operand (values_in slots.now) of.now) (words.operand (values_in slots.now) index.now)) store.now.heap) d store.now.heap) }
{
    let of = operand(alloc, slots, of)?;
    let index = operand(alloc, slots, index)?;
    ended(load(alloc, store, &of, &index))
}

/// Writes an element of an array.
pub fn store_at(
    alloc: Global,
    store: &mut Store,
    slots: &[Slot],
    of: &Operand,
    index: &Operand,
    value: &Operand,
) -> Result<Does, AllocError>
    ensures acts { (fresh : Fresh) → IfOk result (λ d. ActsAs (acted (first_cells fresh) (cells.store (words.operand (values_in slots.now) of.now) (words.operand (values_in slots.now) index.now) (words.operand (values_in slots.now) value.now)) store.old.heap) d store.new.heap) }
    ensures closed { store.new.closed ≡ store.old.closed }
    ensures kept { OnErr result (store.new.heap ≡ store.old.heap) }
{
    let of = operand(alloc, slots, of)?;
    let index = operand(alloc, slots, index)?;
    let value = operand(alloc, slots, value)?;
    written(store_element(store, &of, &index, value))
}

/// The length of an array.
pub fn length(
    alloc: Global,
    store: &Store,
    slots: &[Slot],
    of: &Operand,
) -> Result<Does, AllocError>
    ensures { (fresh : Fresh) → IfOk result (λ d. ActsAs (acted (first_cells fresh) (cells.array_length (words.operand (values_in slots.now) of.now)) store.now.heap) d store.now.heap) }
{
    let of = operand(alloc, slots, of)?;
    ended(array_length(store, &of))
}

/// A new object of a class.
pub fn object(
    alloc: Global,
    code: &Code,
    store: &mut Store,
    class: u16,
    site: u16,
) -> Result<Does, AllocError>
    ensures acts { IfOk result (λ d. ActsAs (acted (first_cells (fresh_of code.now)) (cells.make_object (fresh_of code.now) class site) store.old.heap) d store.new.heap) }
    ensures closed { store.new.closed ≡ store.old.closed }
    ensures kept { OnErr result (store.new.heap ≡ store.old.heap) }
{
    ended(make_object(alloc, code, store, class, site))
}

/// A new array.
pub fn array(
    alloc: Global,
    store: &mut Store,
    slots: &[Slot],
    element: u16,
    site: u16,
    length: &Operand,
) -> Result<Does, AllocError>
    ensures acts { (fresh : Fresh) → IfOk result (λ d. ActsAs (acted (first_cells fresh) (cells.make_array element site (words.operand (values_in slots.now) length.now)) store.old.heap) d store.new.heap) }
    ensures closed { store.new.closed ≡ store.old.closed }
    ensures kept { OnErr result (store.new.heap ≡ store.old.heap) }
{
    let length = operand(alloc, slots, length)?;
    ended(make_array(alloc, store, element, site, &length))
}

/// On to the next row of a result set.
pub fn next_row(
    alloc: Global,
    code: &Code,
    store: &mut Store,
    slots: &[Slot],
    of: &Operand,
) -> Result<Does, AllocError>
    ensures acts { (fresh : Fresh) → IfOk result (λ d. ActsAs (acted (first_cells fresh) (mean.next (statements_of code.now) (words.operand (values_in slots.now) of.now)) store.old.heap) d store.new.heap) }
    ensures closed { store.new.closed ≡ store.old.closed }
    ensures kept { OnErr result (store.new.heap ≡ store.old.heap) }
{
    let of = operand(alloc, slots, of)?;
    written(next(code, store, &of))
}

/// A column that is a long.
pub fn long_column(
    alloc: Global,
    code: &Code,
    store: &Store,
    slots: &[Slot],
    of: &Operand,
    column: &Operand,
) -> Result<Does, AllocError>
    ensures { (fresh : Fresh) → IfOk result (λ d. ActsAs (acted (first_cells fresh) (mean.get_column (statements_of code.now) mean.long_in (words.operand (values_in slots.now) of.now) (words.operand (values_in slots.now) column.now)) store.now.heap) d store.now.heap) }
{
    let of = operand(alloc, slots, of)?;
    let column = operand(alloc, slots, column)?;
    ended(get_long(alloc, code, store, &of, &column))
}

/// A column that is a text.
pub fn text_column(
    alloc: Global,
    code: &Code,
    store: &Store,
    slots: &[Slot],
    of: &Operand,
    column: &Operand,
) -> Result<Does, AllocError>
    ensures { (fresh : Fresh) → IfOk result (λ d. ActsAs (acted (first_cells fresh) (mean.get_column (statements_of code.now) mean.text_in (words.operand (values_in slots.now) of.now) (words.operand (values_in slots.now) column.now)) store.now.heap) d store.now.heap) }
{
    let of = operand(alloc, slots, of)?;
    let column = operand(alloc, slots, column)?;
    ended(get_string(alloc, code, store, &of, &column))
}
