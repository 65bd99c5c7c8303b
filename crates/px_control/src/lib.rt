//! What goes with control, run: frames with slots that know whether they were written, marks of written cells, names of sends.
#![tactic(auto)]

mod absorb;
mod back;
mod blanks;
mod calls;
mod carry;
mod control;
mod emit;
mod fitting;
mod frame;
mod heap_end;
mod homes;
pub mod law;
mod marks;
mod message;
mod names;
mod news;
mod slot;
mod stack;
mod stop;
mod taking;

pub use absorb::AbsorbError;
pub use back::{chosen, entry_of, first_of, onward, to_of};
pub use blanks::{blank_slots, entered_slots};
pub use control::Control;
pub use frame::Frame;
pub use heap_end::HeapEnd;
pub use homes::Homes;
pub use marks::{Mark, Marks};
pub use message::{CellAt, FrameTold, SlotAt, Transfer, Updates};
pub use names::{Name, Names};
pub use slot::{Slot, Slots};
pub use stop::Stop;
