//! Copies of words, for blocks.
ghost use Rattle.std.specs.Prelude.{◌≡◌, IfOk};

use px_code::{Operand, Word};
use std::alloc::{AllocError, Global};

fn copy_operand(alloc: Global, operand: &Operand) -> Result<Operand, AllocError>
    ensures { IfOk result (λ copy. copy ≡ operand.now) }
{
    match operand {
        Operand::Slot(slot) => Ok(Operand::Slot(*slot)),
        Operand::Literal(value) => Ok(Operand::Literal(value.copy(alloc)?)),
    }
}

fn copy_if(alloc: Global, operand: &Option<Operand>) -> Result<Option<Operand>, AllocError>
    ensures { IfOk result (λ copy. copy ≡ operand.now) }
{
    match operand {
        Some(operand) => Ok(Some(copy_operand(alloc, operand)?)),
        None => Ok(None),
    }
}

pub fn copy_word(alloc: Global, word: &Word) -> Result<Word, AllocError>
    ensures { IfOk result (λ copy. copy ≡ word.now) }
{
    match word {
        Word::Set { to, value } => Ok(Word::Set {
            to: *to,
            value: copy_operand(alloc, value)?,
        }),
        Word::Op {
            op,
            to,
            left,
            right,
        } => Ok(Word::Op {
            op: *op,
            to: *to,
            left: copy_operand(alloc, left)?,
            right: copy_if(alloc, right)?,
        }),
        Word::Get {
            to,
            of,
            class,
            field,
        } => Ok(Word::Get {
            to: *to,
            of: copy_operand(alloc, of)?,
            class: *class,
            field: *field,
        }),
        Word::Put {
            of,
            class,
            field,
            value,
        } => Ok(Word::Put {
            of: copy_operand(alloc, of)?,
            class: *class,
            field: *field,
            value: copy_operand(alloc, value)?,
        }),
        Word::Return(value) => Ok(Word::Return(copy_if(alloc, value)?)),
    }
}
