//! `&`, `|` and `^`, on numbers and on truths.
ghost use Rattle.std.specs.Prelude.{◌≡◌, Ok};
ghost use Rattle.px_value.specs.Operators.{bitwise as mean_bitwise};
ghost use Rattle.px_ops.specs.Applying.{meant};

use crate::pair::Pair;
use px_value::{Op, Value};

macro_rules! on_bits {
    ($op:expr, $of:path, $a:expr, $b:expr) => {
        match $op {
            Op::And => $of($a & $b),
            Op::Or => $of($a | $b),
            Op::Xor => $of($a ^ $b),
            _ => Value::Null,
        }
    };
}

pub fn bitwise(op: Op, pair: Pair) -> Value
    ensures { Ok result ≡ mean_bitwise op (meant pair) }
{
    match pair {
        Pair::Ints(a, b) => on_bits!(op, Value::Int, a, b),
        Pair::Longs(a, b) => on_bits!(op, Value::Long, a, b),
        Pair::Bools(a, b) => on_bits!(op, Value::Bool, a, b),
        Pair::Others => Value::Null,
    }
}
