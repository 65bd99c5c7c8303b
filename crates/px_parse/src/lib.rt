//! The grammar of the whole language: words, trees, which words spell which tree, and where a text stops being the beginning of a program.
#![tactic(auto)]

mod blocks;
mod classes;
mod error;
mod expressions;
mod heads;
pub mod law;
mod locals;
mod members;
mod nodes;
mod parts;
mod program;
mod simple;
mod source;
mod statements;
mod tokens;
mod types;
mod whole;

pub use error::{ParseError, ReadError};
pub use program::{line_at, parse, refused_line};
pub use whole::Declared;
