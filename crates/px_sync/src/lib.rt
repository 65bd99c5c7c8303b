//! Synchronization: what each side keeps, and after which statements it is sent what it keeps.
#![tactic(auto)]

mod homes;
mod kept;
pub mod law;
mod pairs;
mod place;
mod sent;
mod side;

pub use homes::home;
pub use kept::Kept;
pub use place::place_sends;
