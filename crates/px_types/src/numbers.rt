//! Numbers of 16 bits. A program that keeps the rules has no greater ones; another is answered as if memory had run out.
ghost use Rattle.std.specs.Prelude.{◌≡◌, ◌+◌, IfOk};

use std::alloc::AllocError;

pub fn narrow(number: usize) -> Result<u16, AllocError>
    ensures { IfOk result (λ narrow. narrow ≡ number) }
{
    if number > u16::MAX as usize {
        return Err(AllocError);
    }
    Ok(number as u16)
}

pub fn sum(first: u16, more: usize) -> Result<u16, AllocError>
    ensures { IfOk result (λ sum. sum ≡ first + more) }
{
    let more = narrow(more)?;
    match first.checked_add(more) {
        Some(sum) => Ok(sum),
        None => Err(AllocError),
    }
}
