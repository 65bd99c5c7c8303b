//! From what an act came to.
ghost use Rattle.std.specs.Prelude.{◌≡◌, List, [], Ok, Err, IfOk, OnErr};
ghost use Rattle.px_value.specs.declared.object.Object.{Object};
ghost use Rattle.px_value.specs.Operators.{Applied};
ghost use Rattle.px_effects.specs.Act.{Acted, Came, quiet};
ghost use Rattle.px_ops.specs.Applying.{ComesTo};
ghost use Rattle.px_acts.specs.Ends.{Stops, Ends, Writes};
ghost use Rattle.px_acts.specs.Did.{ActsAs};

use crate::cells::Done;
use crate::does::Does;
use crate::stop::Stop;
use px_ops::OpError;
use px_value::{Thrown, Value};
use std::alloc::AllocError;

/// A value or a throw, and no cell that was written.
pub fn comes(value: Result<Value, Thrown>) -> Does
    ensures { (heap : List Object) → ActsAs (quiet (Came value) heap) result heap }
{
    Does::Comes { value, wrote: None }
}

fn stopped(stop: Stop) -> Result<Does, AllocError>
    ensures acts { (a : Acted) (heap : List Object) → Stops a stop heap → IfOk result (λ d. ActsAs a d heap) }
    ensures failed { OnErr result (stop ≡ Stop.NoMemory) }
{
    match stop {
        Stop::Threw(thrown) => Ok(Does::Comes {
            value: Err(thrown),
            wrote: None,
        }),
        Stop::NoMemory => Err(AllocError),
    }
}

/// Of an act that writes no cell.
pub fn ended(came: Result<Value, Stop>) -> Result<Does, AllocError>
    ensures acts { (a : Acted) (heap : List Object) → Ends a came heap → IfOk result (λ d. ActsAs a d heap) }
    ensures failed { OnErr result (came ≡ Err Stop.NoMemory) }
{
    match came {
        Ok(value) => Ok(Does::Comes {
            value: Ok(value),
            wrote: None,
        }),
        Err(stop) => stopped(stop),
    }
}

/// Of one that may write a cell.
pub fn written(came: Result<Done, Stop>) -> Result<Does, AllocError>
    ensures acts { (a : Acted) (heap : List Object) → Writes a came heap → IfOk result (λ d. ActsAs a d heap) }
    ensures failed { OnErr result (came ≡ Err Stop.NoMemory) }
{
    match came {
        Ok(done) => Ok(done_of(done)),
        Err(stop) => stopped(stop),
    }
}

fn done_of(done: Done) -> Does
    ensures { (a : Acted) (heap : List Object) → Writes a (Ok done) heap → ActsAs a result heap }
{
    let Done { value, wrote } = done;
    Does::Comes {
        value: Ok(value),
        wrote,
    }
}

/// Of an operator.
pub fn operated(came: Result<Value, OpError>) -> Result<Does, AllocError>
    ensures { (applied : Applied) (heap : List Object) → ComesTo came applied → IfOk result (λ d. ActsAs (quiet (Came applied) heap) d heap) }
{
    match came {
        Ok(value) => Ok(comes(Ok(value))),
        Err(OpError::Thrown(thrown)) => Ok(comes(Err(thrown))),
        Err(OpError::NoMemory) => Err(AllocError),
    }
}
