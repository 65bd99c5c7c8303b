//! Words that call a method.
ghost use Rattle.std.specs.Prelude.{◌≡◌, IfOk};
ghost use Rattle.px_effects.specs.Act.{Firsts};
ghost use Rattle.px_normal.specs.Words as words;
ghost use Rattle.px_normal.specs.Words.{invokes_on};
ghost use Rattle.px_acts.specs.Slots.{values_in};
ghost use Rattle.px_acts.specs.Did.{Did, Shared};

use crate::came::comes;
use crate::cells::reference;
use crate::does::Does;
use crate::frame::{Slot, operand, push_operands};
use px_normal::Operand;
use px_value::{Value, Values};
use std::alloc::{AllocError, Global};

fn invokes_at(
    alloc: Global,
    slots: &[Slot],
    object: u32,
    method: u16,
    args: &[Operand],
) -> Result<Does, AllocError>
    ensures { (firsts : Firsts) (shared : Shared) → IfOk result (λ d. Did firsts (invokes_on (Value.Ref object) method (words.operands (values_in slots.now) args.now)) shared d shared) }
{
    let mut values = Values::new(alloc);
    values.push(Value::Ref(object))?;
    push_operands(alloc, slots, args, &mut values)?;
    Ok(Does::Invokes { method, values })
}

fn invokes_on_value(
    alloc: Global,
    slots: &[Slot],
    of: &Value,
    method: u16,
    args: &[Operand],
) -> Result<Does, AllocError>
    ensures { (firsts : Firsts) (shared : Shared) → IfOk result (λ d. Did firsts (invokes_on of.now method (words.operands (values_in slots.now) args.now)) shared d shared) }
{
    match reference(of) {
        Ok(object) => invokes_at(alloc, slots, object, method, args),
        Err(thrown) => Ok(comes(Err(thrown))),
    }
}

/// A method is called on the value of an operand (JLS 15.12.4.4).
pub fn invokes(
    alloc: Global,
    slots: &[Slot],
    of: &Operand,
    method: u16,
    args: &[Operand],
) -> Result<Does, AllocError>
    ensures { (firsts : Firsts) (shared : Shared) → IfOk result (λ d. Did firsts (invokes_on (words.operand (values_in slots.now) of.now) method (words.operands (values_in slots.now) args.now)) shared d shared) }
{
    let of = operand(alloc, slots, of)?;
    invokes_on_value(alloc, slots, &of, method, args)
}
