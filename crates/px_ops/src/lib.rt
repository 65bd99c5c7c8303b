//! The operators of the source language, on values.
#![tactic(auto)]

mod bits;
mod change;
mod compare;
mod error;
mod fitting;
pub mod law;
mod numbers;
mod operators;
mod pair;
mod same;
mod shift;
mod table;
mod text;

pub use change::changed;
pub use error::OpError;
pub use fitting::fits;
pub use operators::apply;
pub use px_value::{Op, Thrown, Ty};
pub use table::{OPS, OpRow};
