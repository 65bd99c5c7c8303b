//! Operands.
ghost use Rattle.std.specs.Prelude.{◌≡◌, ◌-◌, ◌++◌, length, List};
ghost use Rattle.px_pyxil_reader.specs.Reading.{Gives, number_by, literal_of, by_mark, plain_operand_of, of_word, quoted_or_plain, operand_at, operand_of, operand_if, operands_in, operands_to_end};

use crate::numbers::{int_of, long_of, u16_of, u32_of};
use crate::texts::take_text;
use crate::unread::Unread;
use crate::words::{cut_at, take_end, take_word};
use px_normal::Operand;
use px_value::Value;
use sqlite_items::Items;
use std::alloc::Global;

// An int, or a long, by what stands before an `L` and from there on.
fn number_by(digits: &[u8], rest: &[u8]) -> Option<Value>
    ensures { result ≡ number_by digits.now rest.now }
{
    match rest {
        [] => Some(Value::Int(int_of(digits)?)),
        [_] => Some(Value::Long(long_of(digits)?)),
        _ => None,
    }
}

#[tactic(auto, unfolding(crate::specs::Reading::literal_of))]
fn literal_of(word: &[u8]) -> Option<Value>
    ensures { result ≡ literal_of word.now }
{
    if word == b"true".as_slice() {
        Some(Value::Bool(true))
    } else if word == b"false".as_slice() {
        Some(Value::Bool(false))
    } else if word == b"null".as_slice() {
        Some(Value::Null)
    } else {
        let (digits, rest) = cut_at(b'L', word);
        number_by(digits, rest)
    }
}

#[tactic(auto, unfolding(crate::specs::Reading::plain_operand_of))]
fn plain_operand_of(word: &[u8]) -> Option<Operand>
    ensures { result ≡ plain_operand_of word.now }
{
    match word {
        [] => None,
        [b'%', digits @ ..] => Some(Operand::Slot(u16_of(digits)?)),
        [b'#', digits @ ..] => Some(Operand::Literal(Value::Ref(u32_of(digits)?))),
        _ => Some(Operand::Literal(literal_of(word)?)),
    }
}

fn take_plain(from: &[u8]) -> Result<(Operand, &[u8]), Unread>
    ensures { Gives (λ x. (x.0, x.1.now)) result (of_word plain_operand_of from.now) }
{
    let (word, rest) = take_word(from)?;
    match plain_operand_of(word) {
        Some(operand) => Ok((operand, rest)),
        None => Err(Unread::NoLine),
    }
}

/// An operand behind a space.
#[tactic(auto, unfolding(crate::specs::Reading::operand_at))]
pub(crate) fn take_operand(alloc: Global, from: &[u8]) -> Result<(Operand, &[u8]), Unread>
    ensures { Gives (λ x. (x.0, x.1.now)) result (operand_at from.now) }
{
    match from {
        [] => Err(Unread::NoLine),
        [_] => take_plain(from),
        [first, second, rest @ ..] => {
            if *first == b' ' && *second == b'"' {
                take_text(alloc, rest)
            } else {
                take_plain(from)
            }
        }
    }
}

/// The last operand.
#[tactic(auto, unfolding(crate::specs::Reading::operand_of))]
pub(crate) fn last_operand(alloc: Global, from: &[u8]) -> Result<Operand, Unread>
    ensures { Gives (λ x. x) result (operand_of from.now) }
{
    let (operand, rest) = take_operand(alloc, from)?;
    take_end(rest)?;
    Ok(operand)
}

/// The last operand, if there is one.
#[tactic(auto, unfolding(crate::specs::Reading::operand_of))]
pub(crate) fn last_operand_if(alloc: Global, from: &[u8]) -> Result<Option<Operand>, Unread>
    ensures { Gives (λ x. x) result (operand_if from.now) }
{
    if from.is_empty() {
        return Ok(None);
    }
    Ok(Some(last_operand(alloc, from)?))
}

/// The operands up to the end.
#[tactic(auto, unfolding(crate::specs::Reading::operands_to_end))]
pub(crate) fn last_operands(alloc: Global, from: &[u8]) -> Result<Items<Operand>, Unread>
    ensures { Gives (λ x. x) result (operands_to_end from.now) }
{
    let mut operands = Items::new(alloc);
    let mut rest = from;
    // Each operand has a byte at least.
    let mut turns = from;
    while let [_, more_turns @ ..] = turns {
        match rest {
            [] => return Ok(operands),
            [_, ..] => {
                let (operand, more) = take_operand(alloc, rest)?;
                operands.push(operand)?;
                rest = more;
            }
        }
        turns = more_turns;
    }
    take_end(rest)?;
    Ok(operands)
}
