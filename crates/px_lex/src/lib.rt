//! The tokens of a program text.
#![tactic(auto)]

mod ahead;
mod keyword;
pub mod law;
mod lexer;
mod names;
mod piece;
mod scan;
mod text;
mod token;

pub use keyword::is_reserved;
pub use lexer::lex;
pub use names::{is_identifier, is_word};
pub use text::spelling;
pub use token::{Token, TokenKind};
