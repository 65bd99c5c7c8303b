//! What ends a block before its last statement.
ghost use Rattle.std.specs.Prelude.{◌≡◌};
ghost use Rattle.px_control.specs.declared.stop.Stop.TheVariants.{NoMemory};

use px_value::Thrown;
use std::alloc::{AllocError, AllocFailed};

#[derive(Clone, Copy, Debug, PartialEq, Eq)]
pub enum Stop {
    Threw(Thrown),
    NoMemory,
}

impl From<AllocError> for Stop {
    ghost from_gives = { λ _ e. e ≡ NoMemory };

    fn from(_: AllocError) -> Self {
        Stop::NoMemory
    }
}

impl<T: Drop> From<AllocFailed<T>> for Stop {
    ghost from_gives = { λ _ e. e ≡ NoMemory };

    fn from(_: AllocFailed<T>) -> Self {
        Stop::NoMemory
    }
}
