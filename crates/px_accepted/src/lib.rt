//! What lowering promises of every program that the type rules accept.
#![tactic(auto)]

pub mod law;
