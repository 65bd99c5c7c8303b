//! A session's calls, served by two ends.
#![tactic(auto)]

mod calls;
pub mod law;

pub use calls::{Wanted, serve};
