//! Code in normal statements of the whole language.
#![tactic(auto)]

mod class;
mod code;
mod method;
mod node;
mod ty;
mod word;

pub use class::{Class, Field};
pub use code::{Code, Site};
pub use method::{Method, Tree};
pub use node::{Counter, Node, NodeKind};
pub use ty::Ty;
pub use word::{Operand, Word};
