//! Points-to: which objects the references in a slot or a part may lead to. (This crate takes the name px_points when the older one goes.)
#![tactic(auto)]

mod collect;
pub mod law;
mod numbers;
mod pairs;
mod part;
mod points;
mod sets;
mod touched;

pub use pairs::Touch;
pub use part::{Pair, Part};
pub use points::{Points, points_to};
