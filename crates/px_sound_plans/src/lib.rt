//! Code with the sends that it needs, cut into blocks, makes a sound plan.
#![tactic(auto)]

pub mod law;
