//! Printed lines.
ghost use Rattle.std.specs.Prelude.{◌≡◌, ◌≤◌, ◌+◌, ◌&&◌, nat_lt, nat_le, ◌++◌, ◌∷◌, [], length, vec_len, OnOk, IfOk};
ghost use Rattle.std.specs.List.{sum_by};
ghost use Rattle.px_value.specs.Operators.{text_of as mean_text_of};
ghost use Rattle.px_effects.specs.Act.{max_prints, max_printed};

use itoa::{Buffer, Integer};
use px_value::{MAX_PRINTED, MAX_PRINTS, Text, Value};
use std::alloc::{AllocError, Global};

/// The lines, and how many bytes they have.
#[derive(Drop)]
pub struct Prints {
    pub lines: Vec<Text>,
    pub bytes: usize,
    ghost counted: { bytes ≡ sum_by length lines.items },
}

fn push_number<I: Integer>(text: &mut Vec<u8>, number: I) -> Result<(), AllocError>
    ensures { OnOk result (text.new.items ≡ text.old.items ++ I.text number) }
{
    text.extend_from_slice(Buffer::new().format(number).as_bytes())
}

fn push_text(text: &mut Vec<u8>, value: &Value) -> Result<(), AllocError>
    ensures { OnOk result (text.new.items ≡ text.old.items ++ mean_text_of value.now) }
{
    match value {
        Value::Int(n) => push_number(text, *n),
        Value::Long(n) => push_number(text, *n),
        Value::Bool(true) => text.extend_from_slice(b"true"),
        Value::Bool(false) => text.extend_from_slice(b"false"),
        Value::Text(t) => text.extend_from_slice(t.as_slice()),
        Value::Null => text.extend_from_slice(b"null"),
        Value::Ref(_) => Ok(()),
    }
}

/// A value as a text.
pub fn text_of(alloc: Global, value: &Value) -> Result<Vec<u8>, AllocError>
    ensures { IfOk result (λ t. t.items ≡ mean_text_of value.now) }
{
    let mut text = Vec::new(alloc);
    push_text(&mut text, value)?;
    Ok(text)
}

impl Prints {
    pub fn new(alloc: Global) -> Prints
        ensures { result.lines.items ≡ [] }
    {
        Prints {
            lines: Vec::new(alloc),
            bytes: 0,
        }
    }

    /// Whether a line of so many bytes is within the limits.
    pub fn has_room(&self, length: usize) -> bool
        ensures { result ≡ nat_lt (vec_len self.now.lines) max_prints && nat_le (self.now.bytes + length) max_printed }
    {
        self.lines.len() < MAX_PRINTS && length <= MAX_PRINTED && self.bytes <= MAX_PRINTED - length
    }

    pub fn push(&mut self, text: Vec<u8>) -> Result<(), AllocError>
        requires { self.old.bytes + length text.items ≤ max_printed }
        ensures { OnOk result (self.new.lines.items ≡ self.old.lines.items ++ text.items ∷ []) }
    {
        let length = text.len();
        self.lines.push(Text::from_vec(text))?;
        self.bytes += length;
        Ok(())
    }

    pub fn into_lines(self) -> Vec<Text>
        ensures { result.items ≡ self.lines.items }
    {
        let Prints { lines, .. } = self;
        lines
    }
}
