//! `<<`, `>>` and `>>>`.
ghost use Rattle.std.specs.Prelude.{◌≡◌, true, false, Ok};
ghost use Rattle.px_value.specs.Operators.{shift as mean_shift, shifted as mean_shifted};

use px_value::{Op, Value};

macro_rules! by_distance {
    ($op:expr, $number:path, $a:expr, $distance:expr) => {
        match $op {
            Op::Shl => $number($a << $distance),
            Op::Shr => $number($a >> $distance),
            Op::Ushr => $number(($a.cast_unsigned() >> $distance).cast_signed()),
            _ => Value::Null,
        }
    };
}

fn shift_int(op: Op, a: i32, by: i64) -> Value
    ensures { Ok result ≡ mean_shift op false a by }
{
    let distance = (by.cast_unsigned() % 32) as u32;
    by_distance!(op, Value::Int, a, distance)
}

fn shift_long(op: Op, a: i64, by: i64) -> Value
    ensures { Ok result ≡ mean_shift op true a by }
{
    let distance = (by.cast_unsigned() % 64) as u32;
    by_distance!(op, Value::Long, a, distance)
}

pub fn shifted(op: Op, a: &Value, by: &Value) -> Value
    ensures { Ok result ≡ mean_shifted op a.now by.now }
{
    match (a, by) {
        (Value::Int(a), Value::Int(by)) => shift_int(op, *a, i64::from(*by)),
        (Value::Int(a), Value::Long(by)) => shift_int(op, *a, *by),
        (Value::Long(a), Value::Int(by)) => shift_long(op, *a, i64::from(*by)),
        (Value::Long(a), Value::Long(by)) => shift_long(op, *a, *by),
        (_, _) => Value::Null,
    }
}
