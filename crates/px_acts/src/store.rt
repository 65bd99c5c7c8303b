//! The heap of a session, which can be taken back to the last close.
ghost use Rattle.std.specs.Prelude.{◌≡◌, ◌<◌, ◌↔◌, ◌++◌, ◌∷◌, [], ◌||◌, not, nat_lt, true, false, is_some, length, take, IfOk, OnOk, OnErr, IsErrOf};
ghost use Rattle.indexmap.specs.IndexMap.{get};
ghost use Rattle.px_value.specs.Heap.{HasNoRoom, written};
ghost use Rattle.px_acts.specs.Undo.{is_cell, undone, restored};

use indexmap::IndexMap;
use px_value::{AddError, Header, Heap, Value, Values};
use std::alloc::{AllocError, Global};
use std::marker::Model;

#[derive(Drop)]
pub struct Store {
    heap: Heap,
    // How many objects there were at the last close.
    start: u32,
    // What stood then in those of their cells that were written since, by object and index.
    olds: IndexMap<(u32, u32), Value>,
}

impl Model for Store {
    ghost use Rattle.std.specs.Prelude.{◌≤◌, length};
    ghost use Rattle.px_acts.specs.Undo.{Stored, restored};

    ghost Value = { Stored };

    ghost view = { λ s. record { heap = s.heap; closed = restored s.start s.olds.entries s.heap } };

    ghost invariant = { λ s. s.start ≤ length s.heap };
}

// A write of the cell needs no note: its object is new, or there is a note.
fn is_noted(start: u32, olds: &IndexMap<(u32, u32), Value>, cell: (u32, u32)) -> bool
    ensures { result ≡ not (nat_lt cell.0 start) || is_some (get is_cell olds.now cell) }
{
    cell.0 >= start || olds.contains_key(&cell)
}

fn write_noted(
    heap: &mut Heap,
    start: u32,
    olds: &IndexMap<(u32, u32), Value>,
    cell: (u32, u32),
    value: Value,
)
    requires { not (nat_lt cell.0 start) || is_some (get is_cell olds.now cell) ≡ true }
    ensures written { heap.new ≡ written heap.old cell.0 cell.1 value }
    ensures restored { restored start olds.now.entries heap.new ≡ restored start olds.now.entries heap.old }
{
    let _ = heap.set(cell.0, cell.1, value);
}

fn write_new(
    heap: &mut Heap,
    start: u32,
    olds: &mut IndexMap<(u32, u32), Value>,
    cell: (u32, u32),
    value: Value,
) -> Result<(), AllocError>
    requires { not (nat_lt cell.0 start) || is_some (get is_cell olds.old cell) ≡ false }
    ensures written { OnOk result (heap.new ≡ written heap.old cell.0 cell.1 value) }
    ensures restored { restored start olds.new.entries heap.new ≡ restored start olds.old.entries heap.old }
    ensures kept { OnErr result (heap.new ≡ heap.old) }
{
    olds.reserve(1)?;
    if let Some(old) = heap.set(cell.0, cell.1, value) {
        olds.insert(cell, old).unwrap();
    }
    Ok(())
}

fn put_back(heap: &mut Heap, cell: (u32, u32), old: Value)
    ensures { heap.new ≡ written heap.old cell.0 cell.1 old }
{
    let _ = heap.set(cell.0, cell.1, old);
}

fn take_back(heap: &mut Heap, olds: &mut IndexMap<(u32, u32), Value>)
    ensures heap { heap.new ≡ undone olds.old.entries heap.old }
    ensures olds { olds.new.entries ≡ [] }
{
    while let Some((cell, old)) = olds.pop() {
        put_back(heap, cell, old);
    }
}

impl Store {
    /// Of a heap that is closed.
    pub fn new(alloc: Global, heap: Heap) -> Store
        ensures heap { result.heap ≡ heap }
        ensures closed { result.closed ≡ heap }
    {
        let start = heap.len();
        Store {
            heap,
            start,
            olds: IndexMap::new(alloc),
        }
    }

    pub fn heap(&self) -> &Heap
        ensures { result.now ≡ self.now.heap }
    {
        &self.heap
    }

    pub fn into_heap(self) -> Heap
        ensures { result ≡ self.heap }
    {
        let Store { heap, .. } = self;
        heap
    }

    /// Writes a cell, if there is one. Room to take it back is found before.
    pub fn write(&mut self, object: u32, index: u32, value: Value) -> Result<(), AllocError>
        ensures written { OnOk result (self.new.heap ≡ written self.old.heap object index value) }
        ensures closed { self.new.closed ≡ self.old.closed }
        ensures kept { OnErr result (self.new.heap ≡ self.old.heap) }
    {
        let cell = (object, index);
        if is_noted(self.start, &self.olds, cell) {
            write_noted(&mut self.heap, self.start, &self.olds, cell, value);
            Ok(())
        } else {
            write_new(&mut self.heap, self.start, &mut self.olds, cell, value)
        }
    }

    /// The place of a new object.
    pub fn add(&mut self, header: Header, cells: Values) -> Result<u32, AddError>
        requires { length cells ≡ header.length }
        ensures place { IfOk result (λ place. place ≡ length self.old.heap) }
        ensures ok { OnOk result (self.new.heap ≡ self.old.heap ++ record { header = header; cells = cells } ∷ []) }
        ensures full { IsErrOf result AddError.HeapFull ↔ HasNoRoom self.old.heap header (length cells) }
        ensures closed { self.new.closed ≡ self.old.closed }
        ensures kept { OnErr result (self.new.heap ≡ self.old.heap) }
    {
        self.heap.add(header, cells)
    }

    /// What was done stays. It takes no memory.
    pub fn close(&mut self)
        ensures heap { self.new.heap ≡ self.old.heap }
        ensures closed { self.new.closed ≡ self.old.heap }
    {
        self.start = self.heap.len();
        self.olds.clear();
    }

    /// What was done since the last close is taken back. It takes no memory.
    pub fn roll_back(&mut self)
        ensures heap { self.new.heap ≡ self.old.closed }
        ensures closed { self.new.closed ≡ self.old.closed }
    {
        self.heap.cut(self.start);
        take_back(&mut self.heap, &mut self.olds);
        self.start = self.heap.len();
    }
}
