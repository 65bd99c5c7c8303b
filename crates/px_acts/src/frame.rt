//! The slots of a frame, and operands.
ghost use Rattle.std.specs.Prelude.{◌≡◌, ◌++◌, slice_get, unwrap_or, IfOk, OnOk};
ghost use Rattle.px_value.specs.declared.value.Value.TheVariants.{Null};
ghost use Rattle.px_normal.specs.Words as words;
ghost use Rattle.px_acts.specs.Slots.{values_in};

use px_normal::Operand;
use px_value::{Value, Values};
use sqlite_items::at;
use std::alloc::{AllocError, Global};

/// A slot, and whether it was written since control came.
#[derive(Debug, Drop)]
pub struct Slot {
    pub value: Value,
    pub written: bool,
}

fn slot_value(alloc: Global, slots: &[Slot], slot: u16) -> Result<Value, AllocError>
    ensures { IfOk result (λ v. v ≡ unwrap_or (slice_get (values_in slots.now) slot) Null) }
{
    match at(slots, usize::from(slot)) {
        Some(slot) => slot.value.copy(alloc),
        None => Ok(Value::Null),
    }
}

/// A copy of the value of an operand.
pub fn operand(alloc: Global, slots: &[Slot], operand: &Operand) -> Result<Value, AllocError>
    ensures { IfOk result (λ v. v ≡ words.operand (values_in slots.now) operand.now) }
{
    match operand {
        Operand::Slot(slot) => slot_value(alloc, slots, *slot),
        Operand::Literal(value) => value.copy(alloc),
    }
}

/// The values of operands, behind others.
pub fn push_operands(
    alloc: Global,
    slots: &[Slot],
    operands: &[Operand],
    values: &mut Values,
) -> Result<(), AllocError>
    ensures { OnOk result (values.new ≡ values.old ++ words.operands (values_in slots.now) operands.now) }
{
    for it in operands {
        values.push(operand(alloc, slots, it)?)?;
    }
    Ok(())
}

/// Copies of the values of operands.
pub fn operands(alloc: Global, slots: &[Slot], operands: &[Operand]) -> Result<Values, AllocError>
    ensures { IfOk result (λ vs. vs ≡ words.operands (values_in slots.now) operands.now) }
{
    let mut values = Values::new(alloc);
    push_operands(alloc, slots, operands, &mut values)?;
    Ok(values)
}
