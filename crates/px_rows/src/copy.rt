//! Copies of rows.
ghost use Rattle.std.specs.Prelude.{◌≡◌, IfOk};

use px_value::Values;
use std::alloc::{AllocError, Global};

pub fn copied(alloc: Global, values: &Values) -> Result<Values, AllocError>
    ensures { IfOk result (λ copy. copy ≡ values.now) }
{
    let mut copy = Values::new(alloc);
    for value in values.as_slice() {
        copy.push(value.copy(alloc)?)?;
    }
    Ok(copy)
}
