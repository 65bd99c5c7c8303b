//! The code of an accepted program is typed.
#![tactic(auto)]

pub mod law;
