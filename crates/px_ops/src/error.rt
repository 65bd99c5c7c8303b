//! What an operator comes to in place of a value.
ghost use Rattle.std.specs.Prelude.{◌≡◌};
ghost use Rattle.px_ops.specs.declared.error.OpError.TheVariants as error;

use px_value::Thrown;
use std::alloc::{AllocError, AllocFailed};

#[derive(Clone, Copy, Debug, PartialEq, Eq)]
pub enum OpError {
    Thrown(Thrown),
    NoMemory,
}

impl From<Thrown> for OpError {
    ghost from_gives = { λ thrown e. e ≡ error.Thrown thrown };

    fn from(thrown: Thrown) -> Self {
        OpError::Thrown(thrown)
    }
}

impl From<AllocError> for OpError {
    ghost from_gives = { λ _ e. e ≡ error.NoMemory };

    fn from(_: AllocError) -> Self {
        OpError::NoMemory
    }
}

impl<T: Drop> From<AllocFailed<T>> for OpError {
    ghost from_gives = { λ _ e. e ≡ error.NoMemory };

    fn from(_: AllocFailed<T>) -> Self {
        OpError::NoMemory
    }
}
