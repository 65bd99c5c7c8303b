//! The parts of a job, placed and shown.
#![tactic(auto)]

pub mod law;
mod sides;
mod texts;

pub use texts::split_text;
