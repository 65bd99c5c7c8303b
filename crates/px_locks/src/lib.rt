//! A book of granted locks, and the rule who waits and who dies.
#![tactic(auto)]

mod book;
pub mod law;
mod mode;
mod spot;
mod want;

pub use book::{Asked, LockBook};
pub use mode::Mode;
pub use want::{Grant, Item, Want};
