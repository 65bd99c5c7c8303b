//! Fields, and elements of arrays.
ghost use Rattle.std.specs.Prelude.{◌≡◌, [], is_some, unwrap_or, IfOk, OnOk, OnErr};
ghost use Rattle.std.specs.Option.{option_copied};
ghost use Rattle.px_value.specs.declared.value.Value.TheVariants.{Null};
ghost use Rattle.px_value.specs.Heap.{cell_at, written};
ghost use Rattle.px_effects.specs.Act.{acted, value_at, header_at, with_place_if};
ghost use Rattle.px_effects.specs.Cells as cells;
ghost use Rattle.px_effects.specs.Cells.{Fresh, first_cells, length_in};
ghost use Rattle.px_acts.specs.Places.{wrote};
ghost use Rattle.px_acts.specs.Ends.{Ends, Writes};

use crate::place::Place;
use crate::stop::Stop;
use crate::store::Store;
use px_value::{Heap, Thrown, Value};
use sqlite_items::at;
use std::alloc::{AllocError, Global};

/// A value that an act came to, and the cell that it wrote, if it did.
#[derive(Debug, Drop)]
pub struct Done {
    pub value: Value,
    pub wrote: Option<Place>,
}

/// The object of a reference.
pub fn reference(value: &Value) -> Result<u32, Thrown>
    ensures { result ≡ cells.reference value.now }
{
    match value {
        Value::Ref(object) => Ok(*object),
        _ => Err(Thrown::NullPointerException),
    }
}

// The place of an index among so many elements.
fn place_of(index: &Value, size: usize) -> Result<u32, Thrown>
    ensures { result ≡ cells.place_of index.now size }
{
    match index {
        Value::Int(index) => place_in(*index, size),
        _ => Err(Thrown::ArrayIndexOutOfBoundsException),
    }
}

fn place_in(index: i32, size: usize) -> Result<u32, Thrown>
    ensures { result ≡ cells.place_of (Value.Int index) size }
{
    if index < 0 {
        return Err(Thrown::ArrayIndexOutOfBoundsException);
    }
    let place = index.cast_unsigned();
    if (place as usize) < size {
        Ok(place)
    } else {
        Err(Thrown::ArrayIndexOutOfBoundsException)
    }
}

/// A number as an int.
pub fn size_value(size: usize) -> Value
    ensures { result ≡ cells.size_value size }
{
    Value::Int(((size % (1 << 32)) as u32).cast_signed())
}

// How many cells an object has.
fn size_of(heap: &Heap, object: u32) -> usize
    ensures { result ≡ length_in (header_at heap.now object) }
{
    match at(heap.as_slice(), object as usize) {
        Some(object) => object.cells.len(),
        None => 0,
    }
}

// A copy, or null where there is no value.
fn copied(alloc: Global, value: Option<&Value>) -> Result<Value, AllocError>
    ensures { IfOk result (λ v. v ≡ unwrap_or (option_copied value.entry) Null) }
{
    match value {
        Some(value) => value.copy(alloc),
        None => Ok(Value::Null),
    }
}

/// A copy of what stands in a cell.
pub fn read_cell(alloc: Global, heap: &Heap, object: u32, index: u32) -> Result<Value, AllocError>
    ensures { IfOk result (λ v. v ≡ value_at heap.now object index) }
{
    copied(alloc, heap.get(object, index))
}

/// Writes a cell, and says which, if there is such a cell.
pub fn write_cell(
    store: &mut Store,
    object: u32,
    index: u32,
    value: Value,
) -> Result<Option<Place>, AllocError>
    ensures heap { OnOk result (store.new.heap ≡ written store.old.heap object index value) }
    ensures wrote { IfOk result (λ p. wrote p ≡ with_place_if (is_some (cell_at store.old.heap object index)) (record { object = object; index = index }) []) }
    ensures closed { store.new.closed ≡ store.old.closed }
    ensures kept { OnErr result (store.new.heap ≡ store.old.heap) }
{
    let place = store
        .heap()
        .get(object, index)
        .map(|_| Place { object, index });
    store.write(object, index, value)?;
    Ok(place)
}

pub fn get_field(alloc: Global, store: &Store, of: &Value, field: u16) -> Result<Value, Stop>
    ensures { (fresh : Fresh) → Ends (acted (first_cells fresh) (cells.get_field of.now field) store.now.heap) result store.now.heap }
{
    let object = reference(of)?;
    Ok(read_cell(alloc, store.heap(), object, u32::from(field))?)
}

pub fn put_field(store: &mut Store, of: &Value, field: u16, value: Value) -> Result<Done, Stop>
    ensures acted { (fresh : Fresh) → Writes (acted (first_cells fresh) (cells.put_field of.now field value) store.old.heap) result store.new.heap }
    ensures closed { store.new.closed ≡ store.old.closed }
    ensures kept { OnErr result (store.new.heap ≡ store.old.heap) }
{
    let object = reference(of)?;
    let wrote = write_cell(store, object, u32::from(field), value)?;
    Ok(Done {
        value: Value::Null,
        wrote,
    })
}

pub fn array_length(store: &Store, of: &Value) -> Result<Value, Stop>
    ensures { (fresh : Fresh) → Ends (acted (first_cells fresh) (cells.array_length of.now) store.now.heap) result store.now.heap }
{
    let object = reference(of)?;
    Ok(size_value(size_of(store.heap(), object)))
}

pub fn load(alloc: Global, store: &Store, of: &Value, index: &Value) -> Result<Value, Stop>
    ensures { (fresh : Fresh) → Ends (acted (first_cells fresh) (cells.load of.now index.now) store.now.heap) result store.now.heap }
{
    let object = reference(of)?;
    let place = place_of(index, size_of(store.heap(), object))?;
    Ok(read_cell(alloc, store.heap(), object, place)?)
}

pub fn store_element(
    store: &mut Store,
    of: &Value,
    index: &Value,
    value: Value,
) -> Result<Done, Stop>
    ensures acted { (fresh : Fresh) → Writes (acted (first_cells fresh) (cells.store of.now index.now value) store.old.heap) result store.new.heap }
    ensures closed { store.new.closed ≡ store.old.closed }
    ensures kept { OnErr result (store.new.heap ≡ store.old.heap) }
{
    let object = reference(of)?;
    let place = place_of(index, size_of(store.heap(), object))?;
    let wrote = write_cell(store, object, place, value)?;
    Ok(Done {
        value: Value::Null,
        wrote,
    })
}
