//! The lines of the heaps.
ghost use Rattle.std.specs.Prelude.{◌≡◌, ◌++◌, ◌∷◌, OnOk};
ghost use Rattle.std.specs.List.{flat_map};
ghost use Rattle.px_report.specs.Lines.{heap_text, numbered, object_line};
ghost use Rattle.px_report.specs.Words.{value_text};

use crate::names::push_kind_name;
use crate::words::{push_number, push_value};
use px_value::{Heap, Object, Text, Value};
use std::alloc::AllocError;

/// Each value behind a space.
pub fn push_cells(text: &mut Vec<u8>, cells: &[Value]) -> Result<(), AllocError>
    ensures { OnOk result (text.new.items ≡ text.old.items ++ flat_map (λ cell. 32 ∷ value_text cell) cells.now) }
{
    for cell in cells {
        text.push(b' ')?;
        push_value(text, cell)?;
    }
    Ok(())
}

fn push_object(
    text: &mut Vec<u8>,
    classes: &[Text],
    place: usize,
    object: &Object,
) -> Result<(), AllocError>
    ensures { OnOk result (text.new.items ≡ text.old.items ++ object_line classes.now place object.now) }
{
    push_number(text, place)?;
    text.push(b' ')?;
    push_kind_name(text, classes, object.header.kind)?;
    push_cells(text, object.cells.as_slice())?;
    text.push(b'\n')?;
    Ok(())
}

fn push_objects(text: &mut Vec<u8>, classes: &[Text], objects: &[Object]) -> Result<(), AllocError>
    ensures { OnOk result (text.new.items ≡ text.old.items ++ numbered (object_line classes.now) 0 objects.now) }
{
    for (place, object) in objects.iter().enumerate() {
        push_object(text, classes, place, object)?;
    }
    Ok(())
}

fn push_heap(
    text: &mut Vec<u8>,
    classes: &[Text],
    number: usize,
    heap: &Heap,
) -> Result<(), AllocError>
    ensures { OnOk result (text.new.items ≡ text.old.items ++ heap_text classes.now number heap.now) }
{
    text.extend_from_slice(b"heap ")?;
    push_number(text, number)?;
    text.push(b'\n')?;
    push_objects(text, classes, heap.as_slice())
}

pub fn push_heaps(text: &mut Vec<u8>, classes: &[Text], heaps: &[Heap]) -> Result<(), AllocError>
    ensures { OnOk result (text.new.items ≡ text.old.items ++ numbered (heap_text classes.now) 1 heaps.now) }
{
    for (place, heap) in heaps.iter().enumerate() {
        push_heap(text, classes, place + 1, heap)?;
    }
    Ok(())
}
