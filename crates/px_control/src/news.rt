//! The new objects of a message.
ghost use Rattle.std.specs.Prelude.{◌≡◌, ◌++◌, ◌∷◌, [], ◌≤◌, map, length, replicate, take, true, IfOk, OnOk, OnErr};
ghost use Rattle.px_value.specs.declared.value.Value.{Value};
ghost use Rattle.px_value.specs.Heap.{heap_counted};
ghost use Rattle.px_normal.specs.First.{default_of, field_default, fields_of, fresh_of};
ghost use Rattle.px_effects.specs.Cells.{element_default, first_of, blank_rows};
ghost use Rattle.px_control.specs.Taken.{kind_fits as kind_is_there, header_fits as header_is_there, Adds};

use crate::blanks::default_value;
use crate::heap_end::HeapEnd;
use px_normal::{Code, Field};
use px_value::{Header, Kind, MAX_COUNTED, MAX_ELEMENTS, Value, Values};
use sqlite_items::at;
use std::alloc::{AllocError, Global};

// The fields of a class, none where it isn't there.
fn fields(code: &Code, class: u16) -> &[Field]
    ensures { result.now ≡ fields_of code.now class }
{
    match at(code.classes.as_slice(), usize::from(class)) {
        Some(class) => class.fields.as_slice(),
        None => &[],
    }
}

// What an element of an array begins with: of int, long, boolean, and of what is a reference.
fn element_value(element: u16) -> Value
    ensures { result ≡ element_default element }
{
    match element {
        0 => Value::Int(0),
        1 => Value::Long(0),
        2 => Value::Bool(false),
        _ => Value::Null,
    }
}

fn class_cells(alloc: Global, fields: &[Field]) -> Result<Values, AllocError>
    ensures { IfOk result (λ cells. cells ≡ map field_default fields.now) }
{
    let mut cells = Values::new(alloc);
    for field in fields {
        cells.push(default_value(field.ty))?;
    }
    Ok(cells)
}

fn push_elements(cells: &mut Values, element: u16, count: u32) -> Result<(), AllocError>
    ensures { OnOk result (cells.new ≡ cells.old ++ replicate count (element_default element)) }
{
    for _ in 0..count {
        cells.push(element_value(element))?;
    }
    Ok(())
}

fn array_cells(alloc: Global, element: u16, count: u32) -> Result<Values, AllocError>
    ensures { IfOk result (λ cells. cells ≡ replicate count (element_default element)) }
{
    let mut cells = Values::new(alloc);
    push_elements(&mut cells, element, count)?;
    Ok(cells)
}

// A result set begins with its cursor; what it gave comes after.
fn row_cells(alloc: Global, count: u32) -> Result<Values, AllocError>
    ensures { IfOk result (λ cells. cells ≡ blank_rows count) }
{
    let mut cells = Values::new(alloc);
    if count > 0 {
        cells.push(Value::Int(0))?;
        push_elements(&mut cells, 3, count - 1)?;
    }
    Ok(cells)
}

// The first cells of a new object.
fn first_cells(alloc: Global, code: &Code, kind: Kind, count: u32) -> Result<Values, AllocError>
    ensures { IfOk result (λ cells. cells ≡ first_of (fresh_of code.now) kind count) }
{
    match kind {
        Kind::Object(class) => class_cells(alloc, fields(code, class)),
        Kind::Array(element) => array_cells(alloc, element, count),
        Kind::Rows(_) => row_cells(alloc, count),
    }
}

fn kind_fits(code: &Code, kind: Kind, count: u32) -> bool
    ensures { result ≡ kind_is_there code.now kind count }
{
    match kind {
        Kind::Object(class) => fields(code, class).len() == count as usize,
        Kind::Array(_) => count <= MAX_ELEMENTS,
        Kind::Rows(_) => true,
    }
}

// The object has as many cells as others of its kind, and there is room for it.
fn header_fits(code: &Code, counted: usize, header: Header) -> bool
    requires { counted ≤ 100000 }
    ensures { result ≡ header_is_there code.now counted header }
{
    kind_fits(code, header.kind, header.length)
        & (counted + (1 + header.length as usize) <= MAX_COUNTED)
}

// Adds a new object that fits.
fn add_new<E: HeapEnd>(
    alloc: Global,
    code: &Code,
    header: Header,
    end: &mut E,
) -> Result<(), AllocError>
    requires { kind_is_there code.now header.kind header.length ≡ true }
    ensures added { OnOk result (E.objects end.new ≡ E.objects end.old ++ record { header = header; cells = first_of (fresh_of code.now) header.kind header.length } ∷ []) }
    ensures err { OnErr result (E.objects end.new ≡ E.objects end.old) }
    ensures closed { E.closed end.new ≡ E.closed end.old }
{
    let cells = first_cells(alloc, code, header.kind, header.length)?;
    match end.add(header, cells) {
        Ok(()) => Ok(()),
        Err(_) => Err(AllocError),
    }
}

/// Adds new objects, as long as each fits, and tells whether all did.
pub fn add_news<E: HeapEnd>(
    alloc: Global,
    code: &Code,
    headers: &[Header],
    end: &mut E,
) -> Result<bool, AllocError>
    ensures added { IfOk result (λ all. Adds all code.now headers.now (E.objects end.old) (E.objects end.new)) }
    ensures front { take (length (E.objects end.old)) (E.objects end.new) ≡ E.objects end.old }
    ensures closed { E.closed end.new ≡ E.closed end.old }
{
    for header in headers {
        let counted = end.heap().counted();
        if !header_fits(code, counted, *header) {
            return Ok(false);
        }
        add_new(alloc, code, *header, end)?;
    }
    Ok(true)
}
