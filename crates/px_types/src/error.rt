//! How a check fails.
ghost use Rattle.std.specs.Prelude.{◌≡◌};
ghost use Rattle.px_types.specs.declared.error.CheckError.TheVariants.{NoMemory};

use std::alloc::{AllocError, AllocFailed};
use thiserror::Error;

#[derive(Clone, Copy, Debug, PartialEq, Eq, Error)]
pub enum CheckError {
    /// The rule with this code is broken, at a token of this line.
    #[error("a type rule is broken")]
    TypeFault { line: u32, code: u8 },
    #[error("out of memory")]
    NoMemory,
}

impl From<AllocError> for CheckError {
    ghost from_gives = { λ _ e. e ≡ NoMemory };

    fn from(_: AllocError) -> Self {
        CheckError::NoMemory
    }
}

impl<T: Drop> From<AllocFailed<T>> for CheckError {
    ghost from_gives = { λ _ e. e ≡ NoMemory };

    fn from(_: AllocFailed<T>) -> Self {
        CheckError::NoMemory
    }
}
