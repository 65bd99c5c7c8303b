//! Texts in quotes.
ghost use Rattle.std.specs.Prelude.{◌≡◌, ◌≤◌, length, List, ℕ, Option, false};
ghost use Rattle.px_pyxil_reader.specs.Reading.{Gives, escape_of, step_of, text_from, text_at};

use crate::unread::Unread;
use px_normal::Operand;
use px_value::{MAX_TEXT, Text, Value};
use std::alloc::Global;

/// What a byte is to the text in which it stands.
#[derive(Clone, Copy)]
pub(crate) enum Step {
    Byte(u8),
    Backslash,
    Close,
    Broken,
}

fn escape_of(byte: u8) -> Step
    ensures { result ≡ escape_of byte }
{
    match byte {
        b'n' => Step::Byte(b'\n'),
        b't' => Step::Byte(b'\t'),
        b'"' | b'\\' => Step::Byte(byte),
        _ => Step::Broken,
    }
}

// What a byte is, right behind a backslash or not.
fn step_of(escaped: bool, byte: u8) -> Step
    ensures { result ≡ step_of escaped byte }
{
    if escaped {
        return escape_of(byte);
    }
    match byte {
        b'"' => Step::Close,
        b'\\' => Step::Backslash,
        b'\t' | b'\n' => Step::Broken,
        _ if byte < 128 => Step::Byte(byte),
        _ => Step::Broken,
    }
}

// The text up to the closing quote, and what stands behind that.
fn take_body(alloc: Global, from: &[u8]) -> Result<(Vec<u8>, &[u8]), Unread>
    ensures { Gives (λ x. (x.0.items, x.1.now)) result (text_from false from.now) }
{
    let mut rest = from;
    let mut escaped = false;
    let mut text = Vec::new(alloc);
    while let [byte, more @ ..] = rest {
        match step_of(escaped, *byte) {
            Step::Byte(byte) => {
                escaped = false;
                text.push(byte)?;
            }
            Step::Backslash => escaped = true,
            Step::Close => return Ok((text, more)),
            Step::Broken => return Err(Unread::NoLine),
        }
        rest = more;
    }
    Err(Unread::NoLine)
}

/// A short text behind an opening quote.
#[tactic(auto, unfolding(crate::specs::Reading::text_at))]
pub(crate) fn take_text(alloc: Global, from: &[u8]) -> Result<(Operand, &[u8]), Unread>
    ensures { Gives (λ x. (x.0, x.1.now)) result (text_at from.now) }
{
    let (text, rest) = take_body(alloc, from)?;
    if text.len() > MAX_TEXT {
        return Err(Unread::NoLine);
    }
    Ok((Operand::Literal(Value::Text(Text::from_vec(text))), rest))
}
