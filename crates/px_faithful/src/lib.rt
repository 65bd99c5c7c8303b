//! What a history of a core means: the run of its calls one at a time.
#![tactic(auto)]

pub mod law;
