//! Why a program is refused.

#[derive(Clone, Copy, Debug, PartialEq, Eq)]
pub enum ProgramCode {
    TooLong,
    /// It is outside the grammar.
    Syntax,
    /// It breaks the type rule with this number.
    Rule(u8),
    /// It has a form that isn't built yet.
    Later,
}

/// A line, from 1, or 0 for the whole file, and why it is refused.
#[derive(Clone, Copy, Debug, PartialEq, Eq)]
pub struct Fault {
    pub line: u32,
    pub code: ProgramCode,
}
