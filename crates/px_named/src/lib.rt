//! Placed code with its names.
#![tactic(auto)]

mod copies;
mod members;
mod names;
mod part;
mod trees;
mod whole;
mod words;

pub use part::push_part;
pub use whole::pyxil_of;
