//! Where a program text stops being one: the first token with which no program goes on, or at which the nesting is above
//! the limit.
//!
//! A stack holds what is still to come, its top first. A token is shown to the top symbol, which takes it and leaves in its
//! place what is then to come, is passed because it may be left out, or refuses it.
#![tactic(auto)]

mod accept;
mod declarations;
mod expressions;
mod postfixes;
mod print;
mod role;
mod simple;
mod stack;
mod statements;
mod symbol;

pub use accept::first_refused;
pub use role::{Role, Spelling};
