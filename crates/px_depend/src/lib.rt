//! Dependences of code: what passes between its nodes.
#![tactic(auto)]

mod dependences;
mod edge;
mod edges;
mod flows;
mod groups;
mod lines;
mod local;
mod objects;
mod places;
mod sizes;
mod slots;
mod summary;

pub use dependences::depend;
pub use edge::{Edge, End, Tie};
pub use edges::Edges;
