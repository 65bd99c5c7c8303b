//! What a program of the whole language means, and what holds of it.
#![tactic(auto)]

pub mod law;

pub use px_code::{Reply, Shown};
