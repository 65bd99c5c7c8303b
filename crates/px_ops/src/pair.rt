//! Two operands of one type.
ghost use Rattle.std.specs.Prelude.{◌≡◌};
ghost use Rattle.px_value.specs.Operators.{pair_of};
ghost use Rattle.px_ops.specs.Applying.{meant};

use px_value::Value;

/// Two numbers after promotion, where both are longs if one is, or two truths.
#[derive(Clone, Copy, Debug)]
pub enum Pair {
    Ints(i32, i32),
    Longs(i64, i64),
    Bools(bool, bool),
    Others,
}

pub fn promoted(a: &Value, b: &Value) -> Pair
    ensures { meant result ≡ pair_of a.now b.now }
{
    match (a, b) {
        (Value::Int(a), Value::Int(b)) => Pair::Ints(*a, *b),
        (Value::Int(a), Value::Long(b)) => Pair::Longs(i64::from(*a), *b),
        (Value::Long(a), Value::Int(b)) => Pair::Longs(*a, i64::from(*b)),
        (Value::Long(a), Value::Long(b)) => Pair::Longs(*a, *b),
        (Value::Bool(a), Value::Bool(b)) => Pair::Bools(*a, *b),
        (_, _) => Pair::Others,
    }
}
