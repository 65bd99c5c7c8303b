//! Lowering preserves the meaning of a program.
#![tactic(auto)]

pub mod law;
