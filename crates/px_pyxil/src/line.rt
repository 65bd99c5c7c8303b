//! The lines of the text.
use crate::tree::{At, Field, Head, Site};
use crate::word::Word;
use px_blocks::Send;
use px_normal::Operand;

#[derive(Drop)]
pub enum Line {
    Field(Field),
    Site(Site),
    /// A method begins.
    Method(Head),
    Do { at: At, word: Word },
    Send(Send),
    /// A branch on a value: its first part follows.
    If { at: At, test: Operand },
    /// The other part of a branch follows.
    Else,
    /// A loop begins: what runs before each test follows.
    Loop,
    /// Whether the loop goes on: its body follows.
    Test { at: At, test: Operand },
    /// The end of a branch, a loop or a method.
    End,
}
