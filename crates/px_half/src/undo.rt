//! What was changed in a heap, so that it can be taken back.
ghost use Rattle.std.specs.Prelude.{◌≡◌, ◌≤◌, ◌<◌, ◌+◌, ◌++◌, ◌∷◌, [], length, vec_len, vec_capacity, OnOk, OnErr};
ghost use Rattle.px_value.specs.Heap.{written};
ghost use Rattle.px_half.specs.Undo.{undone, undo_one};
ghost use Rattle.px_half.specs.declared.undo.Change.TheVariants.{Made};

use px_value::{Header, Heap, Value, Values};
use std::alloc::AllocError;

#[derive(Drop)]
pub enum Change {
    /// The value that stood in a cell.
    Wrote { object: u32, index: u32, old: Value },
    /// The last object is new.
    Made,
}

/// Writes a cell, if there is one, and notes what stood in it.
pub fn write(
    heap: &mut Heap,
    undo: &mut Vec<Change>,
    object: u32,
    index: u32,
    value: Value,
) -> Result<(), AllocError>
    ensures written { OnOk result (heap.new ≡ written heap.old object index value) }
    ensures undone { undone undo.new.items heap.new ≡ undone undo.old.items heap.old }
{
    undo.reserve(1)?;
    write_reserved(heap, undo, object, index, value);
    Ok(())
}

/// Writes a cell, where the undo has room to note what stood in it.
pub fn write_reserved(
    heap: &mut Heap,
    undo: &mut Vec<Change>,
    object: u32,
    index: u32,
    value: Value,
)
    requires room { vec_len undo.old < vec_capacity undo.old }
    ensures written { heap.new ≡ written heap.old object index value }
    ensures undone { undone undo.new.items heap.new ≡ undone undo.old.items heap.old }
    ensures len { vec_len undo.new ≤ vec_len undo.old + 1 }
    ensures capacity { vec_capacity undo.new ≡ vec_capacity undo.old }
{
    if let Some(old) = heap.set(object, index, value) {
        undo.push_reserved(Change::Wrote { object, index, old });
    }
}

/// Adds an object.
pub fn make(
    heap: &mut Heap,
    undo: &mut Vec<Change>,
    header: Header,
    cells: Values,
) -> Result<(), AllocError>
    requires { length cells ≡ header.length }
    ensures made { OnOk result (heap.new ≡ heap.old ++ record { header = header; cells = cells } ∷ []) }
    ensures noted { OnOk result (undo.new.items ≡ undo.old.items ++ Made ∷ []) }
    ensures heap_kept { OnErr result (heap.new ≡ heap.old) }
    ensures undo_kept { OnErr result (undo.new.items ≡ undo.old.items) }
{
    undo.reserve(1)?;
    match heap.add(header, cells) {
        Ok(_) => {
            undo.push_reserved(Change::Made);
            Ok(())
        }
        Err(_) => Err(AllocError),
    }
}

// The heap before one change.
fn take_back_one(heap: &mut Heap, change: Change)
    ensures { heap.new ≡ undo_one change heap.old }
{
    match change {
        Change::Wrote { object, index, old } => {
            let _ = heap.set(object, index, old);
        }
        Change::Made => {
            let count = heap.len();
            heap.cut(count.saturating_sub(1));
        }
    }
}

/// Takes back all changes, the last first.
pub fn take_back(heap: &mut Heap, undo: &mut Vec<Change>)
    ensures heap { heap.new ≡ undone undo.old.items heap.old }
    ensures undo { undo.new.items ≡ [] }
{
    while let Some(change) = undo.pop() {
        take_back_one(heap, change);
    }
}
