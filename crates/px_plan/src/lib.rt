//! Code at a placement, made ready for two ends.
#![tactic(auto)]

pub mod law;
mod plan;
mod prints;

pub use plan::{CompileError, Compiled, compile};
