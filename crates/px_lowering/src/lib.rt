//! From the tree of a program of the whole language to normal statements.
#![tactic(auto)]

mod allocations;
mod assign;
mod calls;
mod copies;
mod draft;
mod expression;
mod facts;
mod locals;
mod method;
mod operators;
mod program;
mod statement;
mod valued;

pub use program::lower;
