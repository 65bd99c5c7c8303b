//! Printed lines.
ghost use Rattle.std.specs.Prelude.{◌≡◌, true, ◌++◌, ◌∷◌, [], length, OnOk, OnErr, IfOk};
ghost use Rattle.px_value.specs.Operators.{text_of as mean_text_of};
ghost use Rattle.px_effects.specs.Act.{Printed, landed, may_print};
ghost use Rattle.px_acts.specs.Ends.{Lands};

use crate::stop::Stop;
use itoa::{Buffer, Integer};
use px_value::{MAX_PRINTED, MAX_PRINTS, Text, Thrown, Value};
use std::alloc::{AllocError, Global};
use std::marker::Model;

/// The lines of a call, seen as the list of their texts.
#[derive(Drop)]
pub struct Prints {
    lines: Vec<Text>,
    bytes: usize,
}

impl Model for Prints {
    ghost use Rattle.std.specs.Prelude.{◌≡◌, List, ℕ, length};
    ghost use Rattle.std.specs.List.{sum_by};

    ghost Value = { List (List ℕ) };

    ghost view = { λ p. p.lines.items };

    ghost invariant = { λ p. p.bytes ≡ sum_by length p.lines.items };
}

fn push_number<I: Integer>(text: &mut Vec<u8>, number: I) -> Result<(), AllocError>
    ensures { OnOk result (text.new.items ≡ text.old.items ++ I.text number) }
{
    text.extend_from_slice(Buffer::new().format(number).as_bytes())
}

fn push_text(text: &mut Vec<u8>, value: &Value) -> Result<(), AllocError>
    ensures { OnOk result (text.new.items ≡ text.old.items ++ mean_text_of value.now) }
{
    match value {
        Value::Int(n) => push_number(text, *n),
        Value::Long(n) => push_number(text, *n),
        Value::Bool(true) => text.extend_from_slice(b"true"),
        Value::Bool(false) => text.extend_from_slice(b"false"),
        Value::Text(t) => text.extend_from_slice(t.as_slice()),
        Value::Null => text.extend_from_slice(b"null"),
        Value::Ref(_) => Ok(()),
    }
}

fn text_of(alloc: Global, value: &Value) -> Result<Vec<u8>, AllocError>
    ensures { IfOk result (λ t. t.items ≡ mean_text_of value.now) }
{
    let mut text = Vec::new(alloc);
    push_text(&mut text, value)?;
    Ok(text)
}

impl Prints {
    pub fn new(alloc: Global) -> Prints
        ensures { result ≡ [] }
    {
        Prints {
            lines: Vec::new(alloc),
            bytes: 0,
        }
    }

    pub fn as_slice(&self) -> &[Text]
        ensures { result.now ≡ self.now }
    {
        self.lines.as_slice()
    }

    pub fn into_lines(self) -> Vec<Text>
        ensures { result.items ≡ self }
    {
        let Prints { lines, .. } = self;
        lines
    }

    /// The next call has printed nothing yet.
    pub fn clear(&mut self)
        ensures { self.new ≡ [] }
    {
        self.lines.clear();
        self.bytes = 0;
    }

    /// Whether the line is within the limits.
    pub fn has_room(&self, line: &[u8]) -> bool
        ensures { result ≡ may_print line.now self.now }
    {
        self.lines.len() < MAX_PRINTS
            && line.len() <= MAX_PRINTED
            && self.bytes <= MAX_PRINTED - line.len()
    }

    fn push(&mut self, line: Vec<u8>) -> Result<(), AllocError>
        requires { may_print line.items self.old ≡ true }
        ensures ok { OnOk result (self.new ≡ self.old ++ line.items ∷ []) }
        ensures kept { OnErr result (self.new ≡ self.old) }
    {
        let length = line.len();
        self.lines.push(Text::from_vec(line))?;
        self.bytes += length;
        Ok(())
    }

    /// Prints a value as a line.
    pub fn print_line(&mut self, alloc: Global, value: &Value) -> Result<Value, Stop>
        ensures landed { Lands (landed self.old (Printed (mean_text_of value.now))) result self.new }
        ensures kept { OnErr result (self.new ≡ self.old) }
    {
        let line = text_of(alloc, value)?;
        if self.has_room(line.as_slice()) {
            self.push(line)?;
            Ok(Value::Null)
        } else {
            Err(Stop::Threw(Thrown::PrintsOut))
        }
    }
}
