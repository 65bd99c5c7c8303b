//! The words of a statement.
ghost use Rattle.std.specs.Prelude.{◌≡◌, ◌++◌, OnOk};
ghost use Rattle.px_pyxil.specs.Words.{operands, operand_if, words_of};
ghost use Rattle.px_pyxil.specs.Spelling.{spaced};

use crate::names::{Element, Member};
use crate::word::Word;
use crate::words::{
    element_name, op_name, push_count, push_member, push_name, push_operand, push_slot,
    push_slot_or_none,
};
use px_normal::Operand;
use px_value::Op;
use sqlite_items::Items;
use std::alloc::AllocError;

fn push_operands(text: &mut Vec<u8>, xs: &[Operand]) -> Result<(), AllocError>
    ensures { OnOk result (text.new.items ≡ text.old.items ++ spaced (operands xs.now)) }
{
    for operand in xs {
        push_operand(text, operand)?;
    }
    Ok(())
}

fn push_operand_if(text: &mut Vec<u8>, operand: &Option<Operand>) -> Result<(), AllocError>
    ensures { OnOk result (text.new.items ≡ text.old.items ++ spaced (operand_if operand.now)) }
{
    match operand {
        Some(operand) => push_operand(text, operand),
        None => Ok(()),
    }
}

/// Puts the words of a statement at the end of the text, with a space before each.
pub fn push_word(text: &mut Vec<u8>, word: &Word) -> Result<(), AllocError>
    ensures { OnOk result (text.new.items ≡ text.old.items ++ spaced (words_of word.now)) }
{
    match word {
        Word::Set { to, value } => {
            text.extend_from_slice(b" set")?;
            push_slot(text, *to)?;
            push_operand(text, value)
        }
        Word::Op {
            op,
            to,
            left,
            right,
        } => {
            text.extend_from_slice(b" op")?;
            push_name(text, op_name(*op))?;
            push_slot(text, *to)?;
            push_operand(text, left)?;
            push_operand_if(text, right)
        }
        Word::Get { to, of, field } => {
            text.extend_from_slice(b" get")?;
            push_slot(text, *to)?;
            push_operand(text, of)?;
            push_member(text, field)
        }
        Word::Put { of, field, value } => {
            text.extend_from_slice(b" put")?;
            push_operand(text, of)?;
            push_member(text, field)?;
            push_operand(text, value)
        }
        Word::Load { to, of, index } => {
            text.extend_from_slice(b" load")?;
            push_slot(text, *to)?;
            push_operand(text, of)?;
            push_operand(text, index)
        }
        Word::Store { of, index, value } => {
            text.extend_from_slice(b" store")?;
            push_operand(text, of)?;
            push_operand(text, index)?;
            push_operand(text, value)
        }
        Word::Len { to, of } => {
            text.extend_from_slice(b" len")?;
            push_slot(text, *to)?;
            push_operand(text, of)
        }
        Word::Next { to, of } => {
            text.extend_from_slice(b" next")?;
            push_slot(text, *to)?;
            push_operand(text, of)
        }
        Word::Long { to, of, column } => {
            text.extend_from_slice(b" long")?;
            push_slot(text, *to)?;
            push_operand(text, of)?;
            push_operand(text, column)
        }
        Word::Text { to, of, column } => {
            text.extend_from_slice(b" text")?;
            push_slot(text, *to)?;
            push_operand(text, of)?;
            push_operand(text, column)
        }
        Word::New { to, class, site } => {
            text.extend_from_slice(b" new")?;
            push_slot(text, *to)?;
            push_name(text, class.as_slice())?;
            push_count(text, *site)
        }
        Word::Array {
            to,
            element,
            length,
            site,
        } => {
            text.extend_from_slice(b" array")?;
            push_slot(text, *to)?;
            push_name(text, element_name(element))?;
            push_operand(text, length)?;
            push_count(text, *site)
        }
        Word::Call {
            to,
            of,
            method,
            args,
        } => {
            text.extend_from_slice(b" call")?;
            push_slot_or_none(text, *to)?;
            push_operand(text, of)?;
            push_member(text, method)?;
            push_operands(text, args.as_slice())
        }
        Word::Query {
            to,
            statement,
            site,
            params,
        } => {
            text.extend_from_slice(b" query")?;
            push_slot(text, *to)?;
            push_count(text, *statement)?;
            push_count(text, *site)?;
            push_operands(text, params.as_slice())
        }
        Word::Update {
            to,
            statement,
            params,
        } => {
            text.extend_from_slice(b" update")?;
            push_slot(text, *to)?;
            push_count(text, *statement)?;
            push_operands(text, params.as_slice())
        }
        Word::Print(value) => {
            text.extend_from_slice(b" print")?;
            push_operand(text, value)
        }
        Word::Return(value) => {
            text.extend_from_slice(b" return")?;
            push_operand_if(text, value)
        }
    }
}
