//! What the type rules of programs are made of: operators, literals, and what is found in a program.
#![tactic(auto)]

mod breach;
mod literal;
mod operators;
mod report;

pub use breach::Breach;
pub use literal::{is_in_range, literal_type};
pub use operators::{
    Group, compares_texts, compound_fits, group_of, group_type, is_minus, operands_fit,
    prefix_fits, prefix_type,
};
pub use report::Report;
