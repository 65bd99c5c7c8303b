//! How often the parts of a program run: its meaning once more, with what was begun and completed.
#![tactic(auto)]

pub mod law;
