//! The type rules are sound.
#![tactic(auto)]

pub mod law;
