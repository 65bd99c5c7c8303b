//! The words of the grammar: what each token is to it, operators, literals.
#![tactic(auto)]

mod lexeme;
mod literals;
mod role;
mod signs;
mod word;

pub use lexeme::{Lexeme, Word};
pub use literals::{digits, inside, is_long, unescaped};
pub use role::roles;
pub use signs::{binary_sign, cast_to, compound_sign, level, prefix_sign, right_level};
pub use word::lexemes;
