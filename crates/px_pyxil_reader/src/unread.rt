//! Why nothing was read.
ghost use Rattle.std.specs.Prelude.{◌≡◌};
ghost use Rattle.px_pyxil_reader.specs.declared.unread.Unread.TheVariants.{NoMemory};

use std::alloc::{AllocError, AllocFailed};

#[derive(Clone, Copy)]
pub(crate) enum Unread {
    /// The bytes spell no line.
    NoLine,
    NoMemory,
}

impl From<AllocError> for Unread {
    ghost from_gives = { λ _ e. e ≡ NoMemory };

    fn from(_: AllocError) -> Self {
        Unread::NoMemory
    }
}

impl<T: Drop> From<AllocFailed<T>> for Unread {
    ghost from_gives = { λ _ e. e ≡ NoMemory };

    fn from(_: AllocFailed<T>) -> Self {
        Unread::NoMemory
    }
}
