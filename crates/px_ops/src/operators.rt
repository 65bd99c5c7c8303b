//! What an operator gives.
ghost use Rattle.std.specs.Prelude.{◌≡◌, IsErrOf};
ghost use Rattle.px_value.specs.Operators.{apply as mean_apply};
ghost use Rattle.px_ops.specs.Applying.{ComesTo};

use crate::bits::bitwise;
use crate::change::changed;
use crate::compare::compared;
use crate::error::OpError;
use crate::numbers::arithmetic;
use crate::pair::promoted;
use crate::same::equality;
use crate::shift::shifted;
use crate::text::{equals, joined, length_of};
use px_value::{Op, Value};
use std::alloc::Global;

/// An operator on two values; a unary one has its operand twice. Values that no typed program gives an operator come to null.
#[tactic(auto, unfolding(px_value::specs::Operators::apply))]
pub fn apply(alloc: Global, op: Op, a: &Value, b: &Value) -> Result<Value, OpError>
    ensures comes { ComesTo result (mean_apply op a.now b.now) }
    ensures memory { IsErrOf result OpError.NoMemory → op ≡ Op.Concat }
{
    match op {
        Op::Add | Op::Sub | Op::Mul | Op::Div | Op::Rem => Ok(arithmetic(op, promoted(a, b))?),
        Op::And | Op::Or | Op::Xor => Ok(bitwise(op, promoted(a, b))),
        Op::Shl | Op::Shr | Op::Ushr => Ok(shifted(op, a, b)),
        Op::Lt | Op::Le | Op::Gt | Op::Ge => Ok(compared(op, promoted(a, b))),
        Op::Eq | Op::Ne => Ok(equality(op, a, b)),
        Op::Neg | Op::Inv | Op::Not | Op::Widen | Op::Narrow => Ok(changed(op, a)),
        Op::Concat => joined(alloc, a, b),
        Op::Equals => Ok(equals(a, b)?),
        Op::Length => Ok(length_of(a)?),
    }
}
