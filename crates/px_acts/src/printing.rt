//! Words that print.
ghost use Rattle.std.specs.Prelude.{◌≡◌, ℕ, List, Err, IfOk, OnErr};
ghost use Rattle.px_value.specs.declared.object.Object.{Object};
ghost use Rattle.px_effects.specs.Act.{Firsts, Landed};
ghost use Rattle.px_effects.specs.Cells.{print_line};
ghost use Rattle.px_normal.specs.Words as words;
ghost use Rattle.px_acts.specs.Slots.{values_in};
ghost use Rattle.px_acts.specs.Ends.{Lands};
ghost use Rattle.px_acts.specs.Did.{Did, LandsAs};

use crate::does::Does;
use crate::frame::{Slot, operand};
use crate::prints::Prints;
use crate::stop::Stop;
use px_normal::Operand;
use px_value::Value;
use std::alloc::{AllocError, Global};

fn landed(came: Result<Value, Stop>) -> Result<Does, AllocError>
    ensures lands { (l : Landed) (prints : List (List ℕ)) → Lands l came prints → IfOk result (λ d. LandsAs l d prints) }
    ensures failed { OnErr result (came ≡ Err Stop.NoMemory) }
{
    match came {
        Ok(value) => Ok(Does::Comes {
            value: Ok(value),
            wrote: None,
        }),
        Err(Stop::Threw(thrown)) => Ok(Does::Comes {
            value: Err(thrown),
            wrote: None,
        }),
        Err(Stop::NoMemory) => Err(AllocError),
    }
}

/// Prints the value of an operand as a line.
pub fn print(
    alloc: Global,
    slots: &[Slot],
    prints: &mut Prints,
    value: &Operand,
) -> Result<Does, AllocError>
    ensures did { (firsts : Firsts) (heap : List Object) → IfOk result (λ d. Did firsts (words.acts (print_line (words.operand (values_in slots.now) value.now))) (record { heap = heap; prints = prints.old }) d (record { heap = heap; prints = prints.new })) }
    ensures kept { OnErr result (prints.new ≡ prints.old) }
{
    let value = operand(alloc, slots, value)?;
    landed(prints.print_line(alloc, &value))
}
