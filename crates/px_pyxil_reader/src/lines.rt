//! A line of the text.
ghost use Rattle.std.specs.Prelude.{◌≡◌, ◌↔◌, IfOk, Some};
ghost use Rattle.px_pyxil.specs.declared.line.Line.{Line};
ghost use Rattle.px_pyxil.specs.declared.line.Line.TheVariants as line;
ghost use Rattle.px_pyxil.specs.Spelling.{line_words};
ghost use Rattle.px_pyxil_reader.specs.Fitting.{LineFits};
ghost use Rattle.px_pyxil_reader.specs.Reading.{Gives};
ghost use Rattle.px_pyxil_reader.specs.LineReading.{field_of, site_of, method_of, send_of, if_of, test_of, do_of, placed_by, node_of, bare, opened, line_of};

use crate::numbers::u32_of;
use crate::operands::last_operand;
use crate::parts::{take_member, take_side, take_u16, take_u32};
use crate::statements::read_statement;
use crate::unread::Unread;
use crate::verbs::{Opening, opening_of, verb_of};
use crate::words::{cut_at, take_end, take_word};
use px_blocks::{Send, SendKind};
use px_pyxil::{At, Field, Head, Line, Site};
use std::alloc::{AllocError, Global};

#[tactic(auto, unfolding(crate::specs::LineReading::field_of))]
fn read_field(alloc: Global, from: &[u8]) -> Result<Line, Unread>
    ensures { Gives (λ x. x) result (field_of from.now) }
{
    let (field, rest) = take_member(alloc, from)?;
    let (side, rest) = take_side(rest)?;
    take_end(rest)?;
    Ok(Line::Field(Field { field, side }))
}

#[tactic(auto, unfolding(crate::specs::LineReading::site_of))]
fn read_site(from: &[u8]) -> Result<Line, Unread>
    ensures { Gives (λ x. x) result (site_of from.now) }
{
    let (number, rest) = take_u16(from)?;
    let (side, rest) = take_side(rest)?;
    take_end(rest)?;
    Ok(Line::Site(Site { number, side }))
}

#[tactic(auto, unfolding(crate::specs::LineReading::method_of))]
fn read_method(alloc: Global, from: &[u8]) -> Result<Line, Unread>
    ensures { Gives (λ x. x) result (method_of from.now) }
{
    let (node, rest) = take_u32(from)?;
    let (side, rest) = take_side(rest)?;
    let (method, rest) = take_member(alloc, rest)?;
    let (slots, rest) = take_u32(rest)?;
    take_end(rest)?;
    let at = At { node, side };
    Ok(Line::Method(Head { at, method, slots }))
}

#[tactic(auto, unfolding(crate::specs::LineReading::send_of))]
fn read_send(alloc: Global, kind: SendKind, from: &[u8]) -> Result<Line, Unread>
    ensures { Gives (λ x. x) result (send_of kind from.now) }
{
    let object = last_operand(alloc, from)?;
    Ok(Line::Send(Send { kind, object }))
}

#[tactic(auto, unfolding(crate::specs::LineReading::if_of))]
fn read_if(alloc: Global, at: At, from: &[u8]) -> Result<Line, Unread>
    ensures { Gives (λ x. x) result (if_of at from.now) }
{
    let test = last_operand(alloc, from)?;
    Ok(Line::If { at, test })
}

#[tactic(auto, unfolding(crate::specs::LineReading::test_of))]
fn read_test(alloc: Global, at: At, from: &[u8]) -> Result<Line, Unread>
    ensures { Gives (λ x. x) result (test_of at from.now) }
{
    let test = last_operand(alloc, from)?;
    Ok(Line::Test { at, test })
}

#[tactic(auto, unfolding(crate::specs::LineReading::do_of))]
fn read_do(alloc: Global, at: At, word: &[u8], from: &[u8]) -> Result<Line, Unread>
    ensures { Gives (λ x. x) result (do_of at word.now from.now) }
{
    let Some(verb) = verb_of(word) else {
        return Err(Unread::NoLine);
    };
    let word = read_statement(alloc, verb, from)?;
    Ok(Line::Do { at, word })
}

fn read_placed(alloc: Global, at: At, word: &[u8], from: &[u8]) -> Result<Line, Unread>
    ensures { Gives (λ x. x) result (placed_by at word.now from.now) }
{
    if word == b"if".as_slice() {
        read_if(alloc, at, from)
    } else if word == b"test".as_slice() {
        read_test(alloc, at, from)
    } else {
        read_do(alloc, at, word, from)
    }
}

#[tactic(auto, unfolding(crate::specs::LineReading::node_of))]
fn read_node(alloc: Global, first: &[u8], from: &[u8]) -> Result<Line, Unread>
    ensures { Gives (λ x. x) result (node_of first.now from.now) }
{
    let Some(node) = u32_of(first) else {
        return Err(Unread::NoLine);
    };
    let (side, rest) = take_side(from)?;
    let (word, rest) = take_word(rest)?;
    read_placed(alloc, At { node, side }, word, rest)
}

fn read_opened(alloc: Global, opening: Opening, first: &[u8], from: &[u8]) -> Result<Line, Unread>
    ensures { Gives (λ x. x) result (opened opening first.now from.now) }
{
    match opening {
        Opening::Field => read_field(alloc, from),
        Opening::Site => read_site(from),
        Opening::Method => read_method(alloc, from),
        Opening::Send(kind) => read_send(alloc, kind, from),
        Opening::Else => {
            take_end(from)?;
            Ok(Line::Else)
        }
        Opening::Loop => {
            take_end(from)?;
            Ok(Line::Loop)
        }
        Opening::End => {
            take_end(from)?;
            Ok(Line::End)
        }
        Opening::Node => read_node(alloc, first, from),
    }
}

#[tactic(auto, unfolding(crate::specs::LineReading::line_of))]
fn read_spelled(alloc: Global, bytes: &[u8]) -> Result<Line, Unread>
    ensures { Gives (λ x. x) result (line_of bytes.now) }
{
    let (first, rest) = cut_at(b' ', bytes);
    read_opened(alloc, opening_of(first), first, rest)
}

/// The line that the bytes spell, or `None` where no line is spelled so.
pub fn read_line(alloc: Global, bytes: &[u8]) -> Result<Option<Line>, AllocError>
    ensures { IfOk result (λ found. (line : Line) → (found ≡ Some line) ↔ (LineFits line × (line_words line ≡ bytes.now))) }
{
    match read_spelled(alloc, bytes) {
        Ok(line) => Ok(Some(line)),
        Err(Unread::NoLine) => Ok(None),
        Err(Unread::NoMemory) => Err(AllocError),
    }
}
