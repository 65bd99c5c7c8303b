//! What a message names is there.
ghost use Rattle.std.specs.Prelude.{◌≡◌, ◌++◌, slice_get, length};
ghost use Rattle.std.specs.List.{list_all};
ghost use Rattle.std.specs.Option.{option_copied};
ghost use Rattle.px_control.specs.Taken.{leads as leads_in, cell_fits as cell_is_there, slot_fits as slot_is_there};

use crate::frame::Frame;
use crate::message::{CellAt, SlotAt};
use px_value::{Heap, Value};
use sqlite_items::at;

// A reference leads to one of so many objects.
fn leads(count: u32, value: &Value) -> bool
    ensures { result ≡ leads_in count value.now }
{
    match value {
        Value::Ref(object) => *object < count,
        _ => true,
    }
}

fn cell_fits(heap: &Heap, cell: &CellAt) -> bool
    ensures { result ≡ cell_is_there heap.now cell.now }
{
    heap.get(cell.object, cell.index).is_some() & leads(heap.len(), &cell.value)
}

/// Whether each cell is there, and each reference leads to an object.
pub fn cells_fit(heap: &Heap, cells: &[CellAt]) -> bool
    ensures { result ≡ list_all (cell_is_there heap.now) cells.now }
{
    for cell in cells {
        if !cell_fits(heap, cell) {
            return false;
        }
    }
    true
}

// A frame of those that stay and those that come.
fn frame_at<'a>(lower: &'a [Frame], news: &'a [Frame], frame: usize) -> Option<&'a Frame>
    ensures { option_copied result ≡ slice_get (lower.entry.now ++ news.entry.now) frame }
{
    if frame < lower.len() {
        at(lower, frame)
    } else {
        at(news, frame - lower.len())
    }
}

fn slot_fits(lower: &[Frame], news: &[Frame], count: u32, slot: &SlotAt) -> bool
    ensures { result ≡ slot_is_there (lower.now ++ news.now) count slot.now }
{
    let there = match frame_at(lower, news, slot.frame) {
        Some(frame) => slot.slot < frame.slots().len(),
        None => false,
    };
    there & leads(count, &slot.value)
}

/// Whether each slot is in its frame, and each reference leads to one of so many objects.
pub fn slots_fit(lower: &[Frame], news: &[Frame], count: u32, slots: &[SlotAt]) -> bool
    ensures { result ≡ list_all (slot_is_there (lower.now ++ news.now) count) slots.now }
{
    for slot in slots {
        if !slot_fits(lower, news, count, slot) {
            return false;
        }
    }
    true
}
