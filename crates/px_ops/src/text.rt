//! Texts: joined, compared and measured.
ghost use Rattle.std.specs.Prelude.{◌≡◌, ◌++◌, pos, OnOk};
ghost use Rattle.std.specs.Int.{int_wrap, w32};
ghost use Rattle.px_value.specs.Operators.{text_of, joined as mean_joined, equals as mean_equals, length_of as mean_length_of};
ghost use Rattle.px_ops.specs.Applying.{ComesTo};

use crate::error::OpError;
use itoa::{Buffer, Integer};
use px_value::{MAX_TEXT, Text, Thrown, Value};
use std::alloc::{AllocError, Global};

fn push_number<I: Integer>(text: &mut Vec<u8>, number: I) -> Result<(), AllocError>
    ensures { OnOk result (text.new.items ≡ text.old.items ++ I.text number) }
{
    text.extend_from_slice(Buffer::new().format(number).as_bytes())
}

fn push_text(text: &mut Vec<u8>, value: &Value) -> Result<(), AllocError>
    ensures { OnOk result (text.new.items ≡ text.old.items ++ text_of value.now) }
{
    match value {
        Value::Int(n) => push_number(text, *n),
        Value::Long(n) => push_number(text, *n),
        Value::Bool(true) => text.extend_from_slice(b"true"),
        Value::Bool(false) => text.extend_from_slice(b"false"),
        Value::Text(t) => text.extend_from_slice(t.as_slice()),
        Value::Null => text.extend_from_slice(b"null"),
        Value::Ref(_) => Ok(()),
    }
}

pub fn joined(alloc: Global, a: &Value, b: &Value) -> Result<Value, OpError>
    ensures { ComesTo result (mean_joined a.now b.now) }
{
    let mut text = Vec::new(alloc);
    push_text(&mut text, a)?;
    push_text(&mut text, b)?;
    if text.len() > MAX_TEXT {
        Err(OpError::Thrown(Thrown::TextTooLong))
    } else {
        Ok(Value::Text(Text::from_vec(text)))
    }
}

pub fn equals(a: &Value, b: &Value) -> Result<Value, Thrown>
    ensures { result ≡ mean_equals a.now b.now }
{
    match (a, b) {
        (Value::Text(a), Value::Text(b)) => Ok(Value::Bool(a.as_slice() == b.as_slice())),
        (Value::Text(_), Value::Null) => Ok(Value::Bool(false)),
        (Value::Null, _) => Err(Thrown::NullPointerException),
        (_, _) => Ok(Value::Null),
    }
}

// The low 32 bits of a count.
fn counted(n: usize) -> i32
    ensures { result ≡ int_wrap w32 (pos n) }
{
    ((n % (1 << 32)) as u32).cast_signed()
}

pub fn length_of(a: &Value) -> Result<Value, Thrown>
    ensures { result ≡ mean_length_of a.now }
{
    match a {
        Value::Text(t) => Ok(Value::Int(counted(t.as_slice().len()))),
        Value::Null => Err(Thrown::NullPointerException),
        _ => Ok(Value::Null),
    }
}
