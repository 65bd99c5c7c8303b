//! The heap of a session during a call, which can be taken back.
ghost use Rattle.std.specs.Prelude.{◌≡◌, ◌≤◌, ◌++◌, ◌∷◌, [], length, take, unwrap_or, IfOk, OnOk, OnErr, IsErrOf, ◌↔◌};
ghost use Rattle.std.specs.Option.{option_copied};
ghost use Rattle.px_value.specs.declared.value.Value.TheVariants.{Null};
ghost use Rattle.px_value.specs.Heap.{HasNoRoom, cell_at, written};
ghost use Rattle.px_plain.specs.Effects.{fresh_object};
ghost use Rattle.px_plain.specs.Undo.{noted, restored, undone};

use crate::change::Change;
use px_value::{AddError, Header, Heap, Kind, Value, Values};
use std::alloc::{AllocError, Global};

/// The heap, how many objects it had when the call began, and what was written in them since.
#[derive(Drop)]
pub struct Store {
    pub heap: Heap,
    pub start: u32,
    pub changes: Vec<Change>,
    ghost began: { start ≤ length heap },
}

impl Store {
    /// Of a call that begins.
    pub fn new(alloc: Global, heap: Heap) -> Store
        ensures heap { result.heap ≡ heap }
        ensures restored { restored result.start result.changes.items result.heap ≡ heap }
    {
        let start = heap.len();
        Store {
            heap,
            start,
            changes: Vec::new(alloc),
        }
    }

    /// The heap that was reached.
    pub fn into_heap(self) -> Heap
        ensures { result ≡ self.heap }
    {
        let Store { heap, .. } = self;
        heap
    }

    /// The heap as it was when the call began.
    pub fn into_old_heap(self) -> Heap
        ensures { result ≡ restored self.start self.changes.items self.heap }
    {
        let Store {
            mut heap,
            start,
            changes,
            ..
        } = self;
        heap.cut(start);
        take_back(&mut heap, changes);
        heap
    }

    /// Writes a cell, if there is one.
    pub fn write(&mut self, object: u32, index: u32, value: Value) -> Result<(), AllocError>
        ensures written { OnOk result (self.new.heap ≡ written self.old.heap object index value) }
        ensures restored { OnOk result (restored self.new.start self.new.changes.items self.new.heap ≡ restored self.old.start self.old.changes.items self.old.heap) }
    {
        if let Some(old) = self.heap.set(object, index, value) {
            self.note(object, index, old)?;
        }
        Ok(())
    }

    // A new object is gone when the call is taken back, and so are its cells.
    fn note(&mut self, object: u32, index: u32, old: Value) -> Result<(), AllocError>
        ensures heap { self.new.heap ≡ self.old.heap }
        ensures start { self.new.start ≡ self.old.start }
        ensures noted { OnOk result (self.new.changes.items ≡ noted self.old.start (record { object = object; index = index; old = old }) self.old.changes.items) }
    {
        if object < self.start {
            self.changes.push(Change { object, index, old })?;
        }
        Ok(())
    }

    /// The place of a new object.
    pub fn add(&mut self, kind: Kind, site: u16, cells: Values) -> Result<u32, AddError>
        ensures place { IfOk result (λ place. place ≡ length self.old.heap) }
        ensures added { OnOk result (self.new.heap ≡ self.old.heap ++ fresh_object kind site cells ∷ []) }
        ensures full { IsErrOf result AddError.HeapFull ↔ HasNoRoom self.old.heap (fresh_object kind site cells).header (length cells) }
        ensures kept { OnErr result (self.new.heap ≡ self.old.heap) }
        ensures restored { restored self.new.start self.new.changes.items self.new.heap ≡ restored self.old.start self.old.changes.items self.old.heap }
    {
        let Ok(length) = u32::try_from(cells.len()) else {
            return Err(AddError::HeapFull);
        };
        self.heap.add(Header { kind, site, length }, cells)
    }
}

// The old value is back in its cell.
fn put_back(heap: &mut Heap, change: Change)
    ensures { heap.new ≡ written heap.old change.object change.index change.old }
{
    let Change { object, index, old } = change;
    let _ = heap.set(object, index, old);
}

fn take_back(heap: &mut Heap, changes: Vec<Change>)
    ensures { heap.new ≡ undone changes.items heap.old }
{
    let mut changes = changes;
    while let Some(change) = changes.pop() {
        put_back(heap, change);
    }
}
