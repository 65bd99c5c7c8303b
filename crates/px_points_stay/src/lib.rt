//! Runs of typed code stay within points-to.
#![tactic(auto)]

pub mod law;
