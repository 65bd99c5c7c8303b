//! `+`, `-`, `*`, `/` and `%`.
ghost use Rattle.std.specs.Prelude.{◌≡◌};
ghost use Rattle.px_value.specs.Operators.{arithmetic as mean_arithmetic};
ghost use Rattle.px_ops.specs.Applying.{meant};

use crate::pair::Pair;
use px_value::{Op, Thrown, Value};

macro_rules! on_numbers {
    ($op:expr, $number:path, $a:expr, $b:expr) => {
        match $op {
            Op::Add => Ok($number($a.wrapping_add($b))),
            Op::Sub => Ok($number($a.wrapping_sub($b))),
            Op::Mul => Ok($number($a.wrapping_mul($b))),
            Op::Div => {
                if $b == 0 {
                    Err(Thrown::ArithmeticException)
                } else {
                    Ok($number($a.wrapping_div($b)))
                }
            }
            Op::Rem => {
                if $b == 0 {
                    Err(Thrown::ArithmeticException)
                } else {
                    Ok($number($a.wrapping_rem($b)))
                }
            }
            _ => Ok(Value::Null),
        }
    };
}

pub fn arithmetic(op: Op, pair: Pair) -> Result<Value, Thrown>
    ensures { result ≡ mean_arithmetic op (meant pair) }
{
    match pair {
        Pair::Ints(a, b) => on_numbers!(op, Value::Int, a, b),
        Pair::Longs(a, b) => on_numbers!(op, Value::Long, a, b),
        _ => Ok(Value::Null),
    }
}
