//! The operators and literals of the syntax tree.
ghost use Rattle.std.specs.Prelude.{◌≡◌, ◌%◌, ◌^◌, Ok};
ghost use Rattle.px_value.specs.declared.value.Value.TheVariants.{Text as TextValue};
ghost use Rattle.px_value.specs.Operators.{apply as mean_apply, changed as mean_changed};
ghost use Rattle.px_mean.specs.Expressions.{decimal_value, literal as mean_literal, widened as mean_widened, prefixed as mean_prefixed, is_true as mean_is_true, decides as mean_decides, combined as mean_combined};
ghost use Rattle.px_mean.specs.Statements.{one as mean_one};
ghost use Rattle.px_plain.specs.View.{Came};

use crate::facts::op_of;
use crate::stop::Stop;
use px_facts::Ty;
use px_ops::{Op, apply};
use px_tree::Sign;
use px_value::{Text, Value};
use std::alloc::Global;

/// What an operator comes to.
pub fn applied(alloc: Global, op: Op, a: &Value, b: &Value) -> Result<Value, Stop>
    ensures { Came result (mean_apply op a.now b.now) }
{
    Ok(apply(alloc, op, a, b)?)
}

/// A value behind a prefix.
#[inline(never)]
pub fn prefixed(alloc: Global, op: Option<Op>, value: Value) -> Result<Value, Stop>
    ensures { Came result (mean_prefixed op value) }
{
    match op {
        None => Ok(value),
        Some(op) => applied(alloc, op, &value, &value),
    }
}

// An int as a long.
#[inline(always)]
fn as_long(value: &Value) -> Value
    ensures { Ok result ≡ mean_changed Op.Widen value.now }
{
    match value {
        Value::Int(n) => Value::Long(i64::from(*n)),
        _ => Value::Null,
    }
}

/// A value where another type is wanted: an int becomes a long.
#[tactic(auto, unfolding(px_value::specs::Operators::apply))]
#[inline(always)]
pub fn widened(from: Ty, to: Ty, value: Value) -> Value
    ensures { mean_widened from to value ≡ Ok result }
{
    match (from, to) {
        (Ty::Int, Ty::Long) => as_long(&value),
        (_, _) => value,
    }
}

// The value of the digits, in its low 64 bits.
#[inline(never)]
fn decimal_bits(digits: &[u8]) -> u64
    ensures { result ≡ decimal_value digits.now 0 % 2 ^ 64 }
{
    let mut bits = 0u64;
    for digit in digits {
        bits = bits
            .wrapping_mul(10)
            .wrapping_add(u64::from(digit.saturating_sub(48)));
    }
    bits
}

/// The value of an integer literal.
pub fn literal(digits: &[u8], long: bool) -> Value
    ensures { result ≡ mean_literal digits.now long }
{
    let bits = decimal_bits(digits);
    if long {
        Value::Long(bits.cast_signed())
    } else {
        Value::Int(((bits % (1 << 32)) as u32).cast_signed())
    }
}

/// The value of a string literal.
#[inline(never)]
pub fn text(alloc: Global, bytes: &[u8]) -> Result<Value, Stop>
    ensures { Came result (Ok (TextValue bytes.now)) }
{
    let bytes = Vec::from_slice(alloc, bytes)?;
    Ok(Value::Text(Text::from_vec(bytes)))
}

pub fn is_true(value: &Value) -> bool
    ensures { result ≡ mean_is_true value.now }
{
    match value {
        Value::Bool(b) => *b,
        _ => false,
    }
}

/// What `++` and `--` add and take.
pub fn one(ty: Ty) -> Value
    ensures { result ≡ mean_one ty }
{
    match ty {
        Ty::Long => Value::Long(1),
        _ => Value::Int(1),
    }
}

/// The value of the left operand is that of the whole.
pub fn decides(sign: Sign, left: &Value) -> bool
    ensures { result ≡ mean_decides sign left.now }
{
    match sign {
        Sign::Both => !is_true(left),
        Sign::Either => is_true(left),
        _ => false,
    }
}

/// What the values of both operands come to, which have these types.
#[inline(never)]
pub fn combined(
    alloc: Global,
    sign: Sign,
    types: (Ty, Ty),
    left: &Value,
    right: Value,
) -> Result<Value, Stop>
    ensures { Came result (mean_combined sign types.0 types.1 left.now right) }
{
    match sign {
        Sign::Both | Sign::Either => Ok(right),
        _ => applied(alloc, op_of(sign, types.0, types.1), left, &right),
    }
}
