//! Words of a line.
ghost use Rattle.std.specs.Prelude.{◌≡◌, ◌++◌, ◌∷◌, [], codes, decimal, OnOk};
ghost use Rattle.px_pyxil.specs.Words as w;

use crate::names::{Element, Member};
use itoa::{Buffer, Integer};
use px_blocks::{SendKind, Side};
use px_normal::Operand;
use px_value::{Op, Value};
use std::alloc::AllocError;

pub fn push_number<I: Integer>(text: &mut Vec<u8>, number: I) -> Result<(), AllocError>
    ensures { OnOk result (text.new.items ≡ text.old.items ++ I.text number) }
{
    text.extend_from_slice(Buffer::new().format(number).as_bytes())
}

fn push_escaped(text: &mut Vec<u8>, byte: u8) -> Result<(), AllocError>
    ensures { OnOk result (text.new.items ≡ text.old.items ++ w.escaped byte) }
{
    match byte {
        b'\n' => text.extend_from_slice(b"\\n"),
        b'\t' => text.extend_from_slice(b"\\t"),
        b'"' => text.extend_from_slice(b"\\\""),
        b'\\' => text.extend_from_slice(b"\\\\"),
        _ => Ok(text.push(byte)?),
    }
}

fn push_quoted(text: &mut Vec<u8>, bytes: &[u8]) -> Result<(), AllocError>
    ensures { OnOk result (text.new.items ≡ text.old.items ++ w.quoted bytes.now) }
{
    text.push(b'"')?;
    for byte in bytes {
        push_escaped(text, *byte)?;
    }
    text.push(b'"')?;
    Ok(())
}

fn push_literal(text: &mut Vec<u8>, value: &Value) -> Result<(), AllocError>
    ensures { OnOk result (text.new.items ≡ text.old.items ++ w.literal_text value.now) }
{
    match value {
        Value::Int(n) => push_number(text, *n),
        Value::Long(n) => {
            push_number(text, *n)?;
            text.extend_from_slice(b"L")
        }
        Value::Bool(true) => text.extend_from_slice(b"true"),
        Value::Bool(false) => text.extend_from_slice(b"false"),
        Value::Text(t) => push_quoted(text, t.as_slice()),
        Value::Null => text.extend_from_slice(b"null"),
        Value::Ref(place) => {
            text.push(b'#')?;
            push_number(text, *place)
        }
    }
}

/// Puts a space and the name of a slot at the end of the text.
pub fn push_slot(text: &mut Vec<u8>, slot: u16) -> Result<(), AllocError>
    ensures { OnOk result (text.new.items ≡ text.old.items ++ 32 ∷ w.slot_text slot) }
{
    text.extend_from_slice(b" %")?;
    push_number(text, slot)
}

/// Puts a space and the name of a slot at the end of the text, or a `-` where there is none.
pub fn push_slot_or_none(text: &mut Vec<u8>, slot: Option<u16>) -> Result<(), AllocError>
    ensures { OnOk result (text.new.items ≡ text.old.items ++ 32 ∷ w.slot_or_none slot) }
{
    match slot {
        Some(slot) => push_slot(text, slot),
        None => text.extend_from_slice(b" -"),
    }
}

/// Puts a space and an operand at the end of the text.
pub fn push_operand(text: &mut Vec<u8>, operand: &Operand) -> Result<(), AllocError>
    ensures { OnOk result (text.new.items ≡ text.old.items ++ 32 ∷ w.operand_text operand.now) }
{
    match operand {
        Operand::Slot(slot) => push_slot(text, *slot),
        Operand::Literal(value) => {
            text.push(b' ')?;
            push_literal(text, value)
        }
    }
}

/// Puts a space and a number at the end of the text.
pub fn push_count<I: Integer>(text: &mut Vec<u8>, number: I) -> Result<(), AllocError>
    ensures { OnOk result (text.new.items ≡ text.old.items ++ 32 ∷ I.text number) }
{
    text.push(b' ')?;
    push_number(text, number)
}

/// Puts a space and a name at the end of the text.
pub fn push_name(text: &mut Vec<u8>, name: &[u8]) -> Result<(), AllocError>
    ensures { OnOk result (text.new.items ≡ text.old.items ++ 32 ∷ name.now) }
{
    text.push(b' ')?;
    text.extend_from_slice(name)
}

/// Puts a space and the name of a field or a method at the end of the text.
pub fn push_member(text: &mut Vec<u8>, member: &Member) -> Result<(), AllocError>
    ensures { OnOk result (text.new.items ≡ text.old.items ++ 32 ∷ w.member_text member.now) }
{
    push_name(text, member.class.as_slice())?;
    text.push(b'.')?;
    text.extend_from_slice(member.name.as_slice())
}

pub fn side_name(side: Side) -> &'static [u8]
    ensures { result.now ≡ w.side_name side }
{
    match side {
        Side::App => b"APP",
        Side::Db => b"DB",
    }
}

pub fn element_name(element: &Element) -> &[u8]
    ensures { result.now ≡ w.element_name element.now }
{
    match element {
        Element::Int => b"int",
        Element::Long => b"long",
        Element::Bool => b"boolean",
        Element::Text => b"String",
        Element::Object(class) => class.as_slice(),
    }
}

pub fn op_name(op: Op) -> &'static [u8]
    ensures { result.now ≡ w.op_name op }
{
    match op {
        Op::Add => b"add",
        Op::Sub => b"sub",
        Op::Mul => b"mul",
        Op::Div => b"div",
        Op::Rem => b"rem",
        Op::And => b"and",
        Op::Or => b"or",
        Op::Xor => b"xor",
        Op::Shl => b"shl",
        Op::Shr => b"shr",
        Op::Ushr => b"ushr",
        Op::Lt => b"lt",
        Op::Le => b"le",
        Op::Gt => b"gt",
        Op::Ge => b"ge",
        Op::Eq => b"eq",
        Op::Ne => b"ne",
        Op::Neg => b"neg",
        Op::Inv => b"inv",
        Op::Not => b"not",
        Op::Widen => b"widen",
        Op::Narrow => b"narrow",
        Op::Concat => b"concat",
        Op::Equals => b"equals",
        Op::Length => b"length",
    }
}

pub fn send_name(kind: SendKind) -> &'static [u8]
    ensures { result.now ≡ w.send_name kind }
{
    match kind {
        SendKind::App => b"sendAPP",
        SendKind::Db => b"sendDB",
        SendKind::Native => b"sendNative",
    }
}
