//! The new objects of a message.
ghost use Rattle.std.specs.Prelude.{◌≡◌, take, length, replicate, IfOk};
ghost use Rattle.px_value.specs.Defaults.{default_of};
ghost use Rattle.px_half.specs.Undo.{undone};
ghost use Rattle.px_half.specs.Absorbed.{element_type as type_of_element, new_cells as cells_of, class_fits as class_is_there, kind_fits as kind_is_there, header_fits as header_is_there, Adds};

use crate::first_heap::class_defaults;
use crate::undo::{Change, make};
use px_code::Code;
use px_value::{Header, Heap, Kind, MAX_COUNTED, MAX_ELEMENTS, Ty, Values};
use sqlite_items::at;
use std::alloc::{AllocError, Global};

// The type of the elements of an array, by its number.
fn element_type(element: u16) -> Ty
    ensures { result ≡ type_of_element element }
{
    match element {
        0 => Ty::Int,
        1 => Ty::Long,
        2 => Ty::Bool,
        3 => Ty::Text,
        _ => Ty::Ref,
    }
}

fn defaults(alloc: Global, ty: Ty, count: u32) -> Result<Values, AllocError>
    ensures { IfOk result (λ cells. cells ≡ replicate count (default_of ty)) }
{
    let mut cells = Values::new(alloc);
    for _ in 0..count {
        cells.push(ty.default_value())?;
    }
    Ok(cells)
}

fn new_cells(alloc: Global, code: &Code, kind: Kind, count: u32) -> Result<Values, AllocError>
    ensures { IfOk result (λ cells. cells ≡ cells_of code.now kind count) }
{
    match kind {
        Kind::Object(class) => class_defaults(alloc, code, class),
        Kind::Array(element) => defaults(alloc, element_type(element), count),
        Kind::Rows(_) => Ok(Values::new(alloc)),
    }
}

fn class_fits(code: &Code, class: u16, count: u32) -> bool
    ensures { result ≡ class_is_there code.now class count }
{
    match at(code.classes.as_slice(), usize::from(class)) {
        Some(class) => class.fields.len() == count as usize,
        None => false,
    }
}

fn kind_fits(code: &Code, kind: Kind, count: u32) -> bool
    ensures { result ≡ kind_is_there code.now kind count }
{
    match kind {
        Kind::Object(class) => class_fits(code, class, count),
        Kind::Array(element) => {
            ((element < 4) | (usize::from(element).saturating_sub(4) < code.classes.len()))
                & (count <= MAX_ELEMENTS)
        }
        Kind::Rows(_) => false,
    }
}

fn header_fits(code: &Code, heap: &Heap, header: Header) -> bool
    ensures { result ≡ header_is_there code.now heap.now header }
{
    kind_fits(code, header.kind, header.length)
        & (usize::from(header.site) <= code.sites.len())
        & (heap.counted() + (1 + header.length as usize) <= MAX_COUNTED)
}

/// Adds new objects, as long as each fits, and tells whether all did.
pub fn add_news(
    alloc: Global,
    code: &Code,
    headers: &[Header],
    heap: &mut Heap,
    undo: &mut Vec<Change>,
) -> Result<bool, AllocError>
    ensures added { IfOk result (λ all. Adds all code.now headers.now heap.old heap.new) }
    ensures front { take (length heap.old) heap.new ≡ heap.old }
    ensures undo_front { take (length undo.old.items) undo.new.items ≡ undo.old.items }
    ensures undone { undone undo.new.items heap.new ≡ undone undo.old.items heap.old }
{
    for header in headers {
        if !header_fits(code, heap, *header) {
            return Ok(false);
        }
        let cells = new_cells(alloc, code, header.kind, header.length)?;
        make(heap, undo, *header, cells)?;
    }
    Ok(true)
}
