//! Tokens.

/// What a token is.
#[derive(Clone, Copy, Debug, PartialEq, Eq)]
pub enum TokenKind {
    /// An identifier.
    Id,
    /// A Java keyword, `true`, `false` or `null`.
    Key,
    /// An integer literal.
    Number,
    /// A string literal.
    Str,
    /// A token of the grammar that is made of signs.
    Sign,
    /// One byte at which neither a separator nor a token begins.
    Bad,
    /// The end of the text.
    End,
}

/// A token, and where it stands.
#[derive(Clone, Copy, Debug, PartialEq, Eq)]
pub struct Token {
    pub kind: TokenKind,
    /// The place of its first byte, from 0.
    pub from: u32,
    /// The place behind its last byte.
    pub to: u32,
    /// The line of its first byte, from 1.
    pub line: u32,
}
