//! PyxIL: placed code with its sends, and its text.
#![tactic(auto)]

mod line;
mod names;
mod printing;
mod statement;
mod tree;
mod word;
mod words;

pub use line::Line;
pub use names::{Element, Member};
pub use printing::print;
pub use tree::{At, Field, Head, Method, Pyxil, Site, Tree};
pub use word::Word;
