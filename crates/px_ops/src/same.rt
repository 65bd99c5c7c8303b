//! `==` and `!=`.
ghost use Rattle.std.specs.Prelude.{◌≡◌, Ok};
ghost use Rattle.px_value.specs.Operators.{same as mean_same, equality as mean_equality};

use px_value::{Op, Value};

// Whether two operands are the same, where they can be compared.
fn are_same(a: &Value, b: &Value) -> Option<bool>
    ensures { result ≡ mean_same a.now b.now }
{
    match (a, b) {
        (Value::Int(a), Value::Int(b)) => Some(*a == *b),
        (Value::Int(a), Value::Long(b)) => Some(i64::from(*a) == *b),
        (Value::Long(a), Value::Int(b)) => Some(*a == i64::from(*b)),
        (Value::Long(a), Value::Long(b)) => Some(*a == *b),
        (Value::Bool(a), Value::Bool(b)) => Some(*a == *b),
        (Value::Ref(a), Value::Ref(b)) => Some(*a == *b),
        (Value::Null, Value::Null) => Some(true),
        (Value::Ref(_), Value::Null) => Some(false),
        (Value::Null, Value::Ref(_)) => Some(false),
        (Value::Text(_), Value::Null) => Some(false),
        (Value::Null, Value::Text(_)) => Some(false),
        (_, _) => None,
    }
}

pub fn equality(op: Op, a: &Value, b: &Value) -> Value
    ensures { Ok result ≡ mean_equality op (mean_same a.now b.now) }
{
    match (op, are_same(a, b)) {
        (Op::Eq, Some(same)) => Value::Bool(same),
        (Op::Ne, Some(same)) => Value::Bool(!same),
        (_, _) => Value::Null,
    }
}
