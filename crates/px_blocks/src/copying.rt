//! Copies of words and sends, for blocks.
ghost use Rattle.std.specs.Prelude.{◌≡◌, IfOk};
ghost use Rattle.px_blocks.specs.Rules.{send_of};

use crate::block::Send;
use crate::placed::Placed;
use px_normal::{Operand, Word};
use sqlite_items::Items;
use std::alloc::{AllocError, Global};

pub fn copy_operand(alloc: Global, operand: &Operand) -> Result<Operand, AllocError>
    ensures { IfOk result (λ copy. copy ≡ operand.now) }
{
    match operand {
        Operand::Slot(slot) => Ok(Operand::Slot(*slot)),
        Operand::Literal(value) => Ok(Operand::Literal(value.copy(alloc)?)),
    }
}

fn copy_if(alloc: Global, operand: &Option<Operand>) -> Result<Option<Operand>, AllocError>
    ensures { IfOk result (λ copy. copy ≡ operand.now) }
{
    match operand {
        Some(operand) => Ok(Some(copy_operand(alloc, operand)?)),
        None => Ok(None),
    }
}

fn copy_all(alloc: Global, operands: &Items<Operand>) -> Result<Items<Operand>, AllocError>
    ensures { IfOk result (λ copy. copy ≡ operands.now) }
{
    let mut copy = Items::new(alloc);
    for operand in operands.as_slice() {
        copy.push(copy_operand(alloc, operand)?)?;
    }
    Ok(copy)
}

// A word that reads or writes the heap.
fn copy_access(alloc: Global, word: &Word) -> Result<Word, AllocError>
    ensures { IfOk result (λ copy. copy ≡ word.now) }
{
    match word {
        Word::Get {
            to,
            of,
            class,
            field,
        } => Ok(Word::Get {
            to: *to,
            of: copy_operand(alloc, of)?,
            class: *class,
            field: *field,
        }),
        Word::Put {
            of,
            class,
            field,
            value,
        } => Ok(Word::Put {
            of: copy_operand(alloc, of)?,
            class: *class,
            field: *field,
            value: copy_operand(alloc, value)?,
        }),
        Word::Load { to, of, index } => Ok(Word::Load {
            to: *to,
            of: copy_operand(alloc, of)?,
            index: copy_operand(alloc, index)?,
        }),
        Word::Store { of, index, value } => Ok(Word::Store {
            of: copy_operand(alloc, of)?,
            index: copy_operand(alloc, index)?,
            value: copy_operand(alloc, value)?,
        }),
        Word::Len { to, of } => Ok(Word::Len {
            to: *to,
            of: copy_operand(alloc, of)?,
        }),
        Word::Next { to, of } => Ok(Word::Next {
            to: *to,
            of: copy_operand(alloc, of)?,
        }),
        Word::Long { to, of, column } => Ok(Word::Long {
            to: *to,
            of: copy_operand(alloc, of)?,
            column: copy_operand(alloc, column)?,
        }),
        Word::Text { to, of, column } => Ok(Word::Text {
            to: *to,
            of: copy_operand(alloc, of)?,
            column: copy_operand(alloc, column)?,
        }),
        _ => Err(AllocError),
    }
}

// A word that calls a method or asks the tables.
fn copy_call(alloc: Global, word: &Word) -> Result<Word, AllocError>
    ensures { IfOk result (λ copy. copy ≡ word.now) }
{
    match word {
        Word::Call {
            to,
            of,
            method,
            args,
        } => Ok(Word::Call {
            to: *to,
            of: copy_operand(alloc, of)?,
            method: *method,
            args: copy_all(alloc, args)?,
        }),
        Word::Query {
            to,
            statement,
            site,
            params,
        } => Ok(Word::Query {
            to: *to,
            statement: *statement,
            site: *site,
            params: copy_all(alloc, params)?,
        }),
        Word::Update {
            to,
            statement,
            params,
        } => Ok(Word::Update {
            to: *to,
            statement: *statement,
            params: copy_all(alloc, params)?,
        }),
        _ => Err(AllocError),
    }
}

pub fn copy_word(alloc: Global, word: &Word) -> Result<Word, AllocError>
    ensures { IfOk result (λ copy. copy ≡ word.now) }
{
    match word {
        Word::Set { to, value } => Ok(Word::Set {
            to: *to,
            value: copy_operand(alloc, value)?,
        }),
        Word::Op {
            op,
            to,
            left,
            right,
        } => Ok(Word::Op {
            op: *op,
            to: *to,
            left: copy_operand(alloc, left)?,
            right: copy_if(alloc, right)?,
        }),
        Word::New { to, class, site } => Ok(Word::New {
            to: *to,
            class: *class,
            site: *site,
        }),
        Word::Array {
            to,
            element,
            length,
            site,
        } => Ok(Word::Array {
            to: *to,
            element: *element,
            length: copy_operand(alloc, length)?,
            site: *site,
        }),
        Word::Print(value) => Ok(Word::Print(copy_operand(alloc, value)?)),
        Word::Return(value) => Ok(Word::Return(copy_if(alloc, value)?)),
        Word::Call { .. } | Word::Query { .. } | Word::Update { .. } => copy_call(alloc, word),
        _ => copy_access(alloc, word),
    }
}

/// The send that follows the statement of a node.
pub fn send_at(alloc: Global, placed: &Placed, node: u32) -> Result<Option<Send>, AllocError>
    ensures { IfOk result (λ send. send ≡ send_of placed.now.sends node) }
{
    if node == 0 {
        return Ok(None);
    }
    match placed.sends.as_slice().get(node as usize - 1) {
        Some(Some(send)) => Ok(Some(Send {
            kind: send.kind,
            object: copy_operand(alloc, &send.object)?,
        })),
        _ => Ok(None),
    }
}
