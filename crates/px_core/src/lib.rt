//! The core: one history of all sessions, which is the run of its calls one at a time.
#![tactic(auto)]

pub mod law;
mod shared;

pub use px_engine::{Begun, Opped};
pub use shared::Core;
