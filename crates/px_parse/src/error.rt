//! Why a text has no tree.
ghost use Rattle.std.specs.Prelude.{◌≡◌};
ghost use Rattle.px_parse.specs.declared.error.ParseError.TheVariants as parse;
ghost use Rattle.px_parse.specs.declared.error.ReadError.TheVariants as read;

use std::alloc::AllocError;
use thiserror::Error;

#[derive(Clone, Copy, Debug, PartialEq, Eq, Error)]
pub enum ParseError {
    #[error("the text is no program")]
    Syntax {
        /// The line of the first token that no program has there, from 1.
        line: u32,
    },
    #[error("out of memory")]
    NoMemory,
}

impl From<AllocError> for ParseError {
    ghost from_gives = { λ _ e. e ≡ parse.NoMemory };

    fn from(_: AllocError) -> Self {
        ParseError::NoMemory
    }
}

/// Why lexemes weren't read.
#[derive(Clone, Copy, Debug, PartialEq, Eq, Error)]
pub enum ReadError {
    /// They are those of no program, whose place is known before they are read.
    #[error("the lexemes are no program's")]
    Unreadable,
    #[error("out of memory")]
    NoMemory,
}

impl From<AllocError> for ReadError {
    ghost from_gives = { λ _ e. e ≡ read.NoMemory };

    fn from(_: AllocError) -> Self {
        ReadError::NoMemory
    }
}
