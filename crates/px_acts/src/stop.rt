//! What stops an act.
ghost use Rattle.std.specs.Prelude.{◌≡◌};
ghost use Rattle.px_acts.specs.declared.stop.Stop.TheVariants.{Threw, NoMemory};
ghost use Rattle.px_acts.specs.Stops.{stop_of};

use px_ops::OpError;
use px_value::Thrown;
use std::alloc::{AllocError, AllocFailed};

/// An act comes to a throw, or memory ran out.
#[derive(Debug, Drop)]
pub enum Stop {
    Threw(Thrown),
    NoMemory,
}

impl From<AllocError> for Stop {
    ghost from_gives = { λ _ e. e ≡ NoMemory };

    fn from(_: AllocError) -> Self {
        Stop::NoMemory
    }
}

impl<T: Drop> From<AllocFailed<T>> for Stop {
    ghost from_gives = { λ _ e. e ≡ NoMemory };

    fn from(_: AllocFailed<T>) -> Self {
        Stop::NoMemory
    }
}

impl From<Thrown> for Stop {
    ghost from_gives = { λ thrown stop. stop ≡ Threw thrown };

    fn from(thrown: Thrown) -> Self {
        Stop::Threw(thrown)
    }
}

impl From<OpError> for Stop {
    ghost from_gives = { λ error stop. stop ≡ stop_of error };

    fn from(error: OpError) -> Self {
        match error {
            OpError::Thrown(thrown) => Stop::Threw(thrown),
            OpError::NoMemory => Stop::NoMemory,
        }
    }
}
