//! The counters of the nodes of lowered code tell how often the nodes run.
#![tactic(auto)]

pub mod law;
