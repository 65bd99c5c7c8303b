//! The type rules of programs, and the first breach of one.
#![tactic(auto)]

mod bodies;
mod classes;
mod context;
mod database;
mod declare;
mod entries;
mod error;
mod expression;
mod home;
mod known;
mod locals;
mod lookup;
mod main_class;
mod members;
mod method;
mod names;
mod node;
mod numbers;
mod program;
mod schema;
mod scope;
mod sites;
mod statement;
mod table;
mod told;
mod values;
mod verdict;

pub use error::CheckError;
pub use program::first_breach;
pub use verdict::check;
