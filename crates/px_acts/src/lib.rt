//! What statements do to a heap, run.
#![tactic(auto)]

mod acting;
mod answering;
mod asking;
mod calling;
mod came;
mod cells;
mod does;
mod frame;
mod objects;
mod operations;
mod place;
mod printing;
mod prints;
mod rows;
mod said;
mod standing;
mod stop;
mod store;

pub use answering::{Answered, answer};
pub use cells::{Done, array_length, get_field, load, put_field, store_element};
pub use does::{Does, do_word};
pub use frame::{Slot, operand, operands};
pub use objects::{make_array, make_object};
pub use operations::{copy_statement, sent};
pub use place::{Cells, Place};
pub use prints::Prints;
pub use rows::{Made, changed, get_long, get_string, make_rows, next};
pub use said::Said;
pub use stop::Stop;
pub use store::Store;
