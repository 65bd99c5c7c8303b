//! Words and their operands.
ghost use Rattle.std.specs.Prelude.{◌≡◌, option_map, IfOk};
ghost use Rattle.px_straight.specs.Taken as taken;
ghost use Rattle.px_straight.specs.Simple as specs;

use px_code::{Operand as SimpleOperand, Word as SimpleWord};
use px_normal::{Operand, Word};
use px_value::Value;
use std::alloc::{AllocError, Global};

fn is_plain(value: &Value) -> bool
    ensures { result ≡ taken.is_plain value.now }
{
    match value {
        Value::Int(_) | Value::Long(_) | Value::Bool(_) | Value::Null => true,
        Value::Text(_) | Value::Ref(_) => false,
    }
}

fn is_taken_operand(operand: &Operand) -> bool
    ensures { result ≡ taken.is_taken_operand operand.now }
{
    match operand {
        Operand::Slot(_) => true,
        Operand::Literal(value) => is_plain(value),
    }
}

fn is_taken_option(operand: &Option<Operand>) -> bool
    ensures { result ≡ taken.is_taken_option operand.now }
{
    match operand {
        None => true,
        Some(operand) => is_taken_operand(operand),
    }
}

/// Whether two ends take a word of a program with this main class.
pub fn is_taken(main: u16, word: &Word) -> bool
    ensures { result ≡ taken.is_taken main word.now }
{
    match word {
        Word::Set { to: _, value } => is_taken_operand(value),
        Word::Op {
            op: _,
            to: _,
            left,
            right,
        } => is_taken_operand(left) && is_taken_option(right),
        Word::Get {
            to: _,
            of,
            class,
            field: _,
        } => is_taken_operand(of) && *class == main,
        Word::Put {
            of,
            class,
            field: _,
            value,
        } => is_taken_operand(of) && is_taken_operand(value) && *class == main,
        Word::Return(value) => is_taken_option(value),
        _ => false,
    }
}

fn simple_operand(alloc: Global, operand: &Operand) -> Result<SimpleOperand, AllocError>
    ensures { IfOk result (λ a. a ≡ specs.simple_operand operand.now) }
{
    match operand {
        Operand::Slot(slot) => Ok(SimpleOperand::Slot(*slot)),
        Operand::Literal(value) => Ok(SimpleOperand::Literal(value.copy(alloc)?)),
    }
}

fn simple_option(
    alloc: Global,
    operand: &Option<Operand>,
) -> Result<Option<SimpleOperand>, AllocError>
    ensures { IfOk result (λ a. a ≡ option_map specs.simple_operand operand.now) }
{
    match operand {
        None => Ok(None),
        Some(operand) => Ok(Some(simple_operand(alloc, operand)?)),
    }
}

pub fn simple_word(alloc: Global, word: &Word) -> Result<SimpleWord, AllocError>
    ensures { IfOk result (λ w. w ≡ specs.simple_word word.now) }
{
    match word {
        Word::Set { to, value } => {
            let value = simple_operand(alloc, value)?;
            Ok(SimpleWord::Set { to: *to, value })
        }
        Word::Op {
            op,
            to,
            left,
            right,
        } => {
            let left = simple_operand(alloc, left)?;
            let right = simple_option(alloc, right)?;
            Ok(SimpleWord::Op {
                op: *op,
                to: *to,
                left,
                right,
            })
        }
        Word::Get {
            to,
            of,
            class,
            field,
        } => {
            let of = simple_operand(alloc, of)?;
            Ok(SimpleWord::Get {
                to: *to,
                of,
                class: *class,
                field: *field,
            })
        }
        Word::Put {
            of,
            class,
            field,
            value,
        } => {
            let of = simple_operand(alloc, of)?;
            let value = simple_operand(alloc, value)?;
            Ok(SimpleWord::Put {
                of,
                class: *class,
                field: *field,
                value,
            })
        }
        Word::Return(value) => Ok(SimpleWord::Return(simple_option(alloc, value)?)),
        _ => Ok(SimpleWord::Return(None)),
    }
}
