//! The events of a core, and what a history of them means.
#![tactic(auto)]

mod event;

pub use event::{Event, is_throw};
