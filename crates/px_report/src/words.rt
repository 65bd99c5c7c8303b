//! Words of a line.
ghost use Rattle.std.specs.Prelude.{◌≡◌, ◌++◌, ◌∷◌, [], codes, OnOk};
ghost use Rattle.std.specs.List.{flat_map};
ghost use Rattle.px_report.specs.Words.{escaped, quoted, reply_text, value_text};

use crate::names::thrown_name;
use itoa::{Buffer, Integer};
use px_code::Reply;
use px_value::Value;
use std::alloc::AllocError;

pub fn push_number<I: Integer>(text: &mut Vec<u8>, number: I) -> Result<(), AllocError>
    ensures { OnOk result (text.new.items ≡ text.old.items ++ I.text number) }
{
    text.extend_from_slice(Buffer::new().format(number).as_bytes())
}

pub fn push_labelled<I: Integer>(
    text: &mut Vec<u8>,
    label: &[u8],
    number: I,
) -> Result<(), AllocError>
    ensures { OnOk result (text.new.items ≡ text.old.items ++ label.now ++ I.text number) }
{
    text.extend_from_slice(label)?;
    push_number(text, number)
}

fn push_escaped(text: &mut Vec<u8>, byte: u8) -> Result<(), AllocError>
    ensures { OnOk result (text.new.items ≡ text.old.items ++ escaped byte) }
{
    match byte {
        b'\n' => text.extend_from_slice(b"\\n"),
        b'\t' => text.extend_from_slice(b"\\t"),
        b'"' => text.extend_from_slice(b"\\\""),
        b'\\' => text.extend_from_slice(b"\\\\"),
        _ => Ok(text.push(byte)?),
    }
}

pub fn push_quoted(text: &mut Vec<u8>, bytes: &[u8]) -> Result<(), AllocError>
    ensures { OnOk result (text.new.items ≡ text.old.items ++ quoted bytes.now) }
{
    text.push(b'"')?;
    for byte in bytes {
        push_escaped(text, *byte)?;
    }
    text.push(b'"')?;
    Ok(())
}

pub fn push_value(text: &mut Vec<u8>, value: &Value) -> Result<(), AllocError>
    ensures { OnOk result (text.new.items ≡ text.old.items ++ value_text value.now) }
{
    match value {
        Value::Int(n) => push_number(text, *n),
        Value::Long(n) => push_number(text, *n),
        Value::Bool(true) => text.extend_from_slice(b"true"),
        Value::Bool(false) => text.extend_from_slice(b"false"),
        Value::Text(t) => push_quoted(text, t.as_slice()),
        Value::Null => text.extend_from_slice(b"null"),
        Value::Ref(place) => {
            text.push(b'#')?;
            push_number(text, *place)
        }
    }
}

pub fn push_reply(text: &mut Vec<u8>, reply: &Reply) -> Result<(), AllocError>
    ensures { OnOk result (text.new.items ≡ text.old.items ++ reply_text reply.now) }
{
    match reply {
        Reply::Void => text.extend_from_slice(b"void"),
        Reply::Value(value) => push_value(text, value),
        Reply::Threw(thrown) => {
            text.extend_from_slice(b"threw ")?;
            text.extend_from_slice(thrown_name(*thrown))
        }
    }
}
