//! Keys and values of columns.
ghost use Rattle.std.specs.Prelude.{◌≡◌, slice_get};
ghost use Rattle.px_rows.specs.Means.{key_value as key_of_value, or_null, same_value};

use px_value::{Value, Values};

fn key_value(value: &Value) -> i64
    ensures { result ≡ key_of_value value.now }
{
    match value {
        Value::Long(key) => *key,
        _ => 0,
    }
}

pub fn key_at(values: &Values, at: usize) -> i64
    ensures { result ≡ key_of_value (or_null (slice_get values.now at)) }
{
    match values.get(at) {
        Some(value) => key_value(value),
        None => 0,
    }
}

pub fn same(left: &Value, right: &Value) -> bool
    ensures { result ≡ same_value left.now right.now }
{
    match (left, right) {
        (Value::Int(a), Value::Int(b)) => a == b,
        (Value::Long(a), Value::Long(b)) => a == b,
        (Value::Text(a), Value::Text(b)) => a.as_slice() == b.as_slice(),
        _ => false,
    }
}
