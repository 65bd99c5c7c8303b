//! Operators of one operand: `-`, `~`, `!`, and the two conversions of numbers.
ghost use Rattle.std.specs.Prelude.{◌≡◌, Ok};
ghost use Rattle.std.specs.Int.{int_wrap, w32};
ghost use Rattle.px_value.specs.Operators.{changed as mean_changed};

use px_value::{Op, Value};

// The low 32 bits.
fn narrow(n: i64) -> i32
    ensures { result ≡ int_wrap w32 n }
{
    (n.rem_euclid(1 << 32) as u32).cast_signed()
}

/// An operator of one operand that is no text. It takes no memory, and never throws.
pub fn changed(op: Op, a: &Value) -> Value
    ensures { Ok result ≡ mean_changed op a.now }
{
    match (op, a) {
        (Op::Neg, Value::Int(a)) => Value::Int(a.wrapping_neg()),
        (Op::Neg, Value::Long(a)) => Value::Long(a.wrapping_neg()),
        (Op::Inv, Value::Int(a)) => Value::Int(!*a),
        (Op::Inv, Value::Long(a)) => Value::Long(!*a),
        (Op::Not, Value::Bool(a)) => Value::Bool(!*a),
        (Op::Widen, Value::Int(a)) => Value::Long(i64::from(*a)),
        (Op::Narrow, Value::Long(a)) => Value::Int(narrow(*a)),
        (_, _) => Value::Null,
    }
}
