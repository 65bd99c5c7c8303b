//! Code of the whole language, as two ends take it, where they do.
#![tactic(auto)]

mod later;
pub mod law;
mod methods;
mod program;
mod types;
mod words;

pub use program::straighten;
