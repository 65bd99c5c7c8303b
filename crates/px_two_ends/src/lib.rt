//! Accepted programs run at two ends as they mean.
#![tactic(auto)]

pub mod law;
