//! What is known of a program that keeps the type rules.
#![tactic(auto)]

mod checked;
mod operation;
mod types;

pub use checked::{Checked, ClassFact, Entry, Fact, Facts, Main, MethodFact, Named};
pub use operation::{Operation, copy_statement};
pub use types::{Element, Ty, fits, same};
