//! `<`, `<=`, `>` and `>=`.
ghost use Rattle.std.specs.Prelude.{◌≡◌, Ok};
ghost use Rattle.px_value.specs.Operators.{compared as mean_compared};
ghost use Rattle.px_ops.specs.Applying.{meant};

use crate::pair::Pair;
use px_value::{Op, Value};

macro_rules! on_numbers {
    ($op:expr, $a:expr, $b:expr) => {
        match $op {
            Op::Lt => Value::Bool($a < $b),
            Op::Le => Value::Bool($a <= $b),
            Op::Gt => Value::Bool($a > $b),
            Op::Ge => Value::Bool($a >= $b),
            _ => Value::Null,
        }
    };
}

pub fn compared(op: Op, pair: Pair) -> Value
    ensures { Ok result ≡ mean_compared op (meant pair) }
{
    match pair {
        Pair::Ints(a, b) => on_numbers!(op, a, b),
        Pair::Longs(a, b) => on_numbers!(op, a, b),
        _ => Value::Null,
    }
}
