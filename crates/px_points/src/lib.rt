//! Which slots and fields may hold a reference to the object of Main.
//!
//! Today's statements allocate nothing, so every reference leads to that object, and points-to sets are sets of places.
#![tactic(auto)]

mod analysis;
mod marks;
mod pass;
mod points;

pub use analysis::points_to;
pub use marks::Marks;
pub use points::Points;
