//! The rows of tables: what operations answer, what they leave, and how they are undone.
#![tactic(auto)]

mod change;
mod choice;
mod copy;
mod key;
pub mod law;
mod load;
mod rank;
mod rows;
mod tables;
mod tree;
mod undo;

pub use load::LoadError;
pub use tables::Tables;
pub use undo::Undo;
