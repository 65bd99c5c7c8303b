//! New objects.
ghost use Rattle.std.specs.Prelude.{◌≡◌, ◌++◌, ◌∷◌, [], map, replicate, length, IfOk, OnErr};
ghost use Rattle.px_effects.specs.Act.{acted, Makes, Firsts};
ghost use Rattle.px_effects.specs.Cells as cells;
ghost use Rattle.px_effects.specs.Cells.{Fresh, first_cells, comes};
ghost use Rattle.px_normal.specs.First as first;
ghost use Rattle.px_normal.specs.First.{fresh_of, field_default};
ghost use Rattle.px_value.specs.declared.value.Value.TheVariants.{Ref};
ghost use Rattle.px_acts.specs.Ends.{Ends};

use crate::stop::Stop;
use crate::store::Store;
use px_normal::{Code, Field, Ty};
use px_value::{AddError, Header, Kind, MAX_ELEMENTS, Thrown, Value, Values};
use sqlite_items::at;
use std::alloc::{AllocError, Global};

fn default_of(ty: Ty) -> Value
    ensures { result ≡ first.default_of ty }
{
    match ty {
        Ty::Int => Value::Int(0),
        Ty::Long => Value::Long(0),
        Ty::Bool => Value::Bool(false),
        _ => Value::Null,
    }
}

// The default of a type of elements, by its number.
fn element_default(element: u16) -> Value
    ensures { result ≡ cells.element_default element }
{
    match element {
        0 => Value::Int(0),
        1 => Value::Long(0),
        2 => Value::Bool(false),
        _ => Value::Null,
    }
}

fn fields_of(code: &Code, class: u16) -> &[Field]
    ensures { result.now ≡ first.fields_of code.now class }
{
    match at(code.classes.as_slice(), usize::from(class)) {
        Some(class) => class.fields.as_slice(),
        None => &[],
    }
}

fn defaults(alloc: Global, fields: &[Field]) -> Result<Values, AllocError>
    ensures { IfOk result (λ vs. vs ≡ map field_default fields.now) }
{
    let mut values = Values::new(alloc);
    for field in fields {
        values.push(default_of(field.ty))?;
    }
    Ok(values)
}

fn elements(alloc: Global, count: usize, element: u16) -> Result<Values, AllocError>
    ensures { IfOk result (λ vs. vs ≡ replicate count (cells.element_default element)) }
{
    let mut values = Values::new(alloc);
    for _ in 0..count {
        values.push(element_default(element))?;
    }
    Ok(values)
}

// How many elements an array is to have.
fn array_size(size: &Value) -> Result<usize, Thrown>
    ensures { result ≡ cells.array_size size.now }
{
    match size {
        Value::Int(size) => int_size(*size),
        _ => Ok(0),
    }
}

fn int_size(size: i32) -> Result<usize, Thrown>
    ensures { result ≡ cells.array_size (Value.Int size) }
{
    if size < 0 {
        Err(Thrown::NegativeArraySizeException)
    } else {
        Ok(size.cast_unsigned() as usize)
    }
}

/// A new object with these cells.
pub fn allocate(store: &mut Store, kind: Kind, site: u16, cells: Values) -> Result<Value, Stop>
    ensures acted { (firsts : Firsts) → firsts (record { kind = kind; site = site; length = length cells }) ≡ cells → Ends (acted firsts (Makes (record { kind = kind; site = site; length = length cells }) (λ object. comes (Ref object))) store.old.heap) result store.new.heap }
    ensures closed { store.new.closed ≡ store.old.closed }
    ensures kept { OnErr result (store.new.heap ≡ store.old.heap) }
{
    let Ok(length) = u32::try_from(cells.len()) else {
        return Err(Stop::Threw(Thrown::HeapFull));
    };
    match store.add(Header { kind, site, length }, cells) {
        Ok(place) => Ok(Value::Ref(place)),
        Err(AddError::HeapFull) => Err(Stop::Threw(Thrown::HeapFull)),
        Err(AddError::NoMemory) => Err(Stop::NoMemory),
    }
}

/// A new object of a class.
pub fn make_object(
    alloc: Global,
    code: &Code,
    store: &mut Store,
    class: u16,
    site: u16,
) -> Result<Value, Stop>
    ensures acted { Ends (acted (first_cells (fresh_of code.now)) (cells.make_object (fresh_of code.now) class site) store.old.heap) result store.new.heap }
    ensures closed { store.new.closed ≡ store.old.closed }
    ensures kept { OnErr result (store.new.heap ≡ store.old.heap) }
{
    let cells = defaults(alloc, fields_of(code, class))?;
    allocate(store, Kind::Object(class), site, cells)
}

/// A new array of elements of a type, by the type's number.
pub fn make_array(
    alloc: Global,
    store: &mut Store,
    element: u16,
    site: u16,
    size: &Value,
) -> Result<Value, Stop>
    ensures acted { (fresh : Fresh) → Ends (acted (first_cells fresh) (cells.make_array element site size.now) store.old.heap) result store.new.heap }
    ensures closed { store.new.closed ≡ store.old.closed }
    ensures kept { OnErr result (store.new.heap ≡ store.old.heap) }
{
    let count = array_size(size)?;
    if count > MAX_ELEMENTS as usize {
        return Err(Stop::Threw(Thrown::HeapFull));
    }
    let cells = elements(alloc, count, element)?;
    allocate(store, Kind::Array(element), site, cells)
}
