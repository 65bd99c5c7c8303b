//! Values: a byte that says which kind, and the value's own bytes.
ghost use Rattle.std.specs.Prelude.{◌≡◌, ◌++◌, OnOk};
ghost use Rattle.px_wire.specs.Spelling.{truth_byte, value_bytes};
ghost use Rattle.px_wire.specs.Fitting.{HasShortText, ValueIsInRange};
ghost use Rattle.px_wire.specs.Reading.{Gives, truth_of, int_at, long_at, truth_at, text_value_at, ref_at, tagged_at, value_at};

use crate::number::{put_u32, put_u64, take_u8, take_u32, take_u64};
use crate::text::{put_text, take_text};
use crate::unread::Unread;
use px_value::Value;
use std::alloc::{AllocError, Global};

pub(crate) fn put_value(out: &mut Vec<u8>, value: &Value) -> Result<(), AllocError>
    requires { HasShortText value.now }
    ensures bytes { OnOk result (out.new.items ≡ out.old.items ++ value_bytes value.now) }
    ensures in_range { OnOk result (ValueIsInRange value.now) }
{
    match value {
        Value::Null => {
            out.push(0)?;
            Ok(())
        }
        Value::Int(n) => {
            out.push(1)?;
            put_u32(out, n.cast_unsigned())
        }
        Value::Long(n) => {
            out.push(2)?;
            put_u64(out, n.cast_unsigned())
        }
        Value::Bool(b) => {
            out.push(3)?;
            out.push(truth_byte(*b))?;
            Ok(())
        }
        Value::Text(text) => {
            out.push(4)?;
            put_text(out, text)
        }
        Value::Ref(place) => {
            out.push(5)?;
            put_u32(out, *place)
        }
    }
}

fn truth_byte(truth: bool) -> u8
    ensures { result ≡ truth_byte truth }
{
    if truth { 1 } else { 0 }
}

fn truth_of(byte: u8) -> Option<bool>
    ensures { result ≡ truth_of byte }
{
    match byte {
        0 => Some(false),
        1 => Some(true),
        _ => None,
    }
}

#[tactic(auto, unfolding(crate::specs::Reading::int_at))]
fn take_int(from: &[u8]) -> Result<(Value, &[u8]), Unread>
    ensures { Gives (λ x. (x.0, x.1.now)) result (int_at from.now) }
{
    let (n, rest) = take_u32(from)?;
    Ok((Value::Int(n.cast_signed()), rest))
}

#[tactic(auto, unfolding(crate::specs::Reading::long_at))]
fn take_long(from: &[u8]) -> Result<(Value, &[u8]), Unread>
    ensures { Gives (λ x. (x.0, x.1.now)) result (long_at from.now) }
{
    let (n, rest) = take_u64(from)?;
    Ok((Value::Long(n.cast_signed()), rest))
}

#[tactic(auto, unfolding(crate::specs::Reading::truth_at))]
fn take_truth(from: &[u8]) -> Result<(Value, &[u8]), Unread>
    ensures { Gives (λ x. (x.0, x.1.now)) result (truth_at from.now) }
{
    let (byte, rest) = take_u8(from)?;
    match truth_of(byte) {
        Some(truth) => Ok((Value::Bool(truth), rest)),
        None => Err(Unread::NoMessage),
    }
}

#[tactic(auto, unfolding(crate::specs::Reading::text_value_at))]
fn take_text_value(alloc: Global, from: &[u8]) -> Result<(Value, &[u8]), Unread>
    ensures { Gives (λ x. (x.0, x.1.now)) result (text_value_at from.now) }
{
    let (text, rest) = take_text(alloc, from)?;
    Ok((Value::Text(text), rest))
}

#[tactic(auto, unfolding(crate::specs::Reading::ref_at))]
fn take_ref(from: &[u8]) -> Result<(Value, &[u8]), Unread>
    ensures { Gives (λ x. (x.0, x.1.now)) result (ref_at from.now) }
{
    let (place, rest) = take_u32(from)?;
    Ok((Value::Ref(place), rest))
}

fn take_tagged(alloc: Global, tag: u8, from: &[u8]) -> Result<(Value, &[u8]), Unread>
    ensures { Gives (λ x. (x.0, x.1.now)) result (tagged_at tag from.now) }
{
    match tag {
        0 => Ok((Value::Null, from)),
        1 => take_int(from),
        2 => take_long(from),
        3 => take_truth(from),
        4 => take_text_value(alloc, from),
        5 => take_ref(from),
        _ => Err(Unread::NoMessage),
    }
}

#[tactic(auto, unfolding(crate::specs::Reading::value_at))]
pub(crate) fn take_value(alloc: Global, from: &[u8]) -> Result<(Value, &[u8]), Unread>
    ensures { Gives (λ x. (x.0, x.1.now)) result (value_at from.now) }
{
    let (tag, rest) = take_u8(from)?;
    take_tagged(alloc, tag, rest)
}
