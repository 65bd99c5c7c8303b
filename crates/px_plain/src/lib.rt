//! The plain run: a program run from its syntax tree, on one heap for each session.
#![tactic(auto)]

mod around;
mod asked;
mod calls;
mod change;
mod effects;
mod expressions;
mod facts;
mod machine;
mod operations;
mod operators;
mod place;
mod plain;
mod prints;
mod rows;
mod serial;
mod statements;
mod stop;
mod store;

pub use plain::Plain;
pub use serial::{Call, Ran, serve};
