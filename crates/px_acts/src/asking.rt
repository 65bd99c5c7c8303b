//! Words that ask the tables.
ghost use Rattle.std.specs.Prelude.{◌≡◌, IfOk};
ghost use Rattle.px_effects.specs.Act.{Firsts};
ghost use Rattle.px_effects.specs.Operations.{operation, operates_on, sent as mean_sent};
ghost use Rattle.px_normal.specs.First.{statements_of};
ghost use Rattle.px_normal.specs.Words as words;
ghost use Rattle.px_normal.specs.Words.{Works};
ghost use Rattle.px_acts.specs.Slots.{values_in};
ghost use Rattle.px_acts.specs.Did.{Did, Shared};

use crate::came::comes;
use crate::does::Does;
use crate::frame::{Slot, operands};
use crate::operations::{copy_statement, sent};
use crate::standing::statement_at;
use px_normal::{Code, Operand};
use px_value::{Statement, TableOp, Thrown, Value, Values};
use std::alloc::{AllocError, Global};

fn asks(
    alloc: Global,
    number: u16,
    statement: &Statement,
    params: Result<Values, Thrown>,
) -> Result<Does, AllocError>
    ensures { (firsts : Firsts) (shared : Shared) → IfOk result (λ d. Did firsts (Works (operates_on number statement.now params)) shared d shared) }
{
    match params {
        Ok(params) => {
            let statement = copy_statement(alloc, statement)?;
            Ok(Does::Operates(TableOp {
                number,
                statement,
                params,
            }))
        }
        Err(thrown) => Ok(comes(Err(thrown))),
    }
}

/// A statement of the program with the values of operands.
pub fn operates(
    alloc: Global,
    code: &Code,
    slots: &[Slot],
    number: u16,
    params: &[Operand],
) -> Result<Does, AllocError>
    ensures { (firsts : Firsts) (shared : Shared) → IfOk result (λ d. Did firsts (Works (operation number (statements_of code.now number) (words.operands (values_in slots.now) params.now))) shared d shared) }
{
    match statement_at(code, number) {
        None => Ok(comes(Ok(Value::Null))),
        Some(statement) => {
            let values = operands(alloc, slots, params)?;
            asks(alloc, number, statement, sent(values))
        }
    }
}
