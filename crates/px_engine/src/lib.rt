//! The tables, the lock book, the history and the seats of all sessions, step by step.
#![tactic(auto)]

mod engine;
mod journal;
mod seat;
mod wants;

pub use engine::{Begun, Engine, Opped};
pub use journal::Journal;
pub use seat::{KilledBy, Seat};
