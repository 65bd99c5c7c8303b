//! A message goes from one end to the other.
ghost use Rattle.std.specs.Prelude.{◌≡◌, ◌⊎◌, IfOk, OnOk, OnErr};
ghost use Rattle.px_half.specs.End.{IsSameEnd};
ghost use Rattle.px_half.specs.Messages.{IsTellable, told};
ghost use Rattle.px_pair.specs.Telling.{IsWelcome, IsHeard};

use px_half::{AbsorbError, Half};
use std::alloc::{AllocError, Global};

/// The message that is due at one end, which the other takes in; how long it was.
#[tactic(auto, using(crate::proofs::Hearing::told_so, crate::proofs::Hearing::never_refused))]
pub fn tell(alloc: Global, from: &mut Half, to: &mut Half) -> Result<usize, AllocError>
    requires tellable { IsTellable from.old.machine }
    requires welcome { IsWelcome from.old to.old }
    ensures told { OnOk result (from.new ≡ told from.old) }
    ensures taken { IfOk result (λ n. IsHeard from.old to.old to.new n) }
    ensures kept { OnErr result ((from.new ≡ from.old) ⊎ (from.new ≡ told from.old)) }
    ensures closed { to.new.closed ≡ to.old.closed }
    ensures same { IsSameEnd to.old to.new }
{
    let bytes = from.emit(alloc)?;
    match to.absorb(alloc, bytes.as_slice()) {
        Ok(()) => Ok(bytes.len()),
        Err(AbsorbError::NoMemory) => Err(AllocError),
        Err(AbsorbError::BadMessage) => unreachable!(),
    }
}
