//! The heap of an end.
ghost use Rattle.std.specs.Prelude.{◌≡◌, ◌≤◌, ◌++◌, ◌∷◌, [], ℕ, suc, List, length, take, OnOk, OnErr};
ghost use Rattle.px_value.specs.declared.object.Object.{Object};
ghost use Rattle.px_value.specs.Heap.{written};

use px_value::{AddError, Header, Heap, Value, Values};
use std::alloc::AllocError;

/// A heap that takes in what a message brings, and may note what leads back to the last close.
pub trait HeapEnd {
    ghost objects: { Self → List Object };

    /// What it leads back to.
    ghost closed: { Self → List Object };

    /// So many writes take no memory.
    ghost has_room: { Self → ℕ → Type 0 };

    fn heap(&self) -> &Heap
        ensures heap { result.now ≡ objects self.now }
        ensures closed { length (closed self.now) ≤ length (objects self.now) };

    fn add(&mut self, header: Header, cells: Values) -> Result<(), AddError>
        requires { length cells ≡ header.length }
        ensures ok { OnOk result (objects self.new ≡ objects self.old ++ record { header = header; cells = cells } ∷ []) }
        ensures err { OnErr result (objects self.new ≡ objects self.old) }
        ensures closed { closed self.new ≡ closed self.old };

    /// Takes back the last objects, which are new since the last close.
    fn cut(&mut self, count: u32)
        requires { length (closed self.old) ≤ count }
        ensures objects { objects self.new ≡ take count (objects self.old) }
        ensures closed { closed self.new ≡ closed self.old };

    /// Finds room for writes.
    fn reserve(&mut self, writes: usize) -> Result<(), AllocError>
        ensures room { OnOk result (has_room self.new writes) }
        ensures objects { objects self.new ≡ objects self.old }
        ensures closed { closed self.new ≡ closed self.old };

    fn write(&mut self, object: u32, index: u32, value: Value)
        requires { (n : ℕ) × has_room self.old (suc n) }
        ensures written { objects self.new ≡ written (objects self.old) object index value }
        ensures closed { closed self.new ≡ closed self.old }
        ensures room { (n : ℕ) → has_room self.old (suc n) → has_room self.new n };
}

/// A heap that leads back nowhere.
impl HeapEnd for Heap {
    ghost objects = { λ h. h };

    ghost closed = { λ _. [] };

    ghost has_room = { λ _ _. Unit {0} };

    fn heap(&self) -> &Heap {
        self
    }

    fn add(&mut self, header: Header, cells: Values) -> Result<(), AddError> {
        Heap::add(self, header, cells)?;
        Ok(())
    }

    fn cut(&mut self, count: u32) {
        Heap::cut(self, count);
    }

    fn reserve(&mut self, _writes: usize) -> Result<(), AllocError> {
        Ok(())
    }

    fn write(&mut self, object: u32, index: u32, value: Value) {
        let _ = self.set(object, index, value);
    }
}
