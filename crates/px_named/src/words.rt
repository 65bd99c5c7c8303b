//! Statements with names.
ghost use Rattle.std.specs.Prelude.{◌≡◌, IfOk};
ghost use Rattle.px_named.specs.Named as specs;

use crate::copies::{copy_all, copy_if, copy_operand};
use crate::names::{class_name, element_named, field_named, method_named};
use px_normal::{Code, Word};
use px_pyxil::Word as NamedWord;
use std::alloc::{AllocError, Global};

// A word that reads or writes a field.
fn named_access(alloc: Global, code: &Code, word: &Word) -> Result<NamedWord, AllocError>
    ensures { IfOk result (λ named. named ≡ specs.named_word code.now word.now) }
{
    match word {
        Word::Get {
            to,
            of,
            class,
            field,
        } => Ok(NamedWord::Get {
            to: *to,
            of: copy_operand(alloc, of)?,
            field: field_named(alloc, code, *class, *field)?,
        }),
        Word::Put {
            of,
            class,
            field,
            value,
        } => Ok(NamedWord::Put {
            of: copy_operand(alloc, of)?,
            field: field_named(alloc, code, *class, *field)?,
            value: copy_operand(alloc, value)?,
        }),
        _ => Err(AllocError),
    }
}

// A word that looks at the elements of arrays or rows.
fn named_look(alloc: Global, code: &Code, word: &Word) -> Result<NamedWord, AllocError>
    ensures { IfOk result (λ named. named ≡ specs.named_word code.now word.now) }
{
    match word {
        Word::Load { to, of, index } => Ok(NamedWord::Load {
            to: *to,
            of: copy_operand(alloc, of)?,
            index: copy_operand(alloc, index)?,
        }),
        Word::Store { of, index, value } => Ok(NamedWord::Store {
            of: copy_operand(alloc, of)?,
            index: copy_operand(alloc, index)?,
            value: copy_operand(alloc, value)?,
        }),
        Word::Len { to, of } => Ok(NamedWord::Len {
            to: *to,
            of: copy_operand(alloc, of)?,
        }),
        Word::Next { to, of } => Ok(NamedWord::Next {
            to: *to,
            of: copy_operand(alloc, of)?,
        }),
        Word::Long { to, of, column } => Ok(NamedWord::Long {
            to: *to,
            of: copy_operand(alloc, of)?,
            column: copy_operand(alloc, column)?,
        }),
        Word::Text { to, of, column } => Ok(NamedWord::Text {
            to: *to,
            of: copy_operand(alloc, of)?,
            column: copy_operand(alloc, column)?,
        }),
        _ => named_access(alloc, code, word),
    }
}

// A word that calls a method or asks the tables.
fn named_call(alloc: Global, code: &Code, word: &Word) -> Result<NamedWord, AllocError>
    ensures { IfOk result (λ named. named ≡ specs.named_word code.now word.now) }
{
    match word {
        Word::Call {
            to,
            of,
            method,
            args,
        } => Ok(NamedWord::Call {
            to: *to,
            of: copy_operand(alloc, of)?,
            method: method_named(alloc, code, *method)?,
            args: copy_all(alloc, args)?,
        }),
        Word::Query {
            to,
            statement,
            site,
            params,
        } => Ok(NamedWord::Query {
            to: *to,
            statement: *statement,
            site: *site,
            params: copy_all(alloc, params)?,
        }),
        Word::Update {
            to,
            statement,
            params,
        } => Ok(NamedWord::Update {
            to: *to,
            statement: *statement,
            params: copy_all(alloc, params)?,
        }),
        _ => Err(AllocError),
    }
}

// A word that makes an object or an array.
fn named_new(alloc: Global, code: &Code, word: &Word) -> Result<NamedWord, AllocError>
    ensures { IfOk result (λ named. named ≡ specs.named_word code.now word.now) }
{
    match word {
        Word::New { to, class, site } => Ok(NamedWord::New {
            to: *to,
            class: class_name(alloc, code, *class)?,
            site: *site,
        }),
        Word::Array {
            to,
            element,
            length,
            site,
        } => Ok(NamedWord::Array {
            to: *to,
            element: element_named(alloc, code, *element)?,
            length: copy_operand(alloc, length)?,
            site: *site,
        }),
        _ => Err(AllocError),
    }
}

pub fn named_word(alloc: Global, code: &Code, word: &Word) -> Result<NamedWord, AllocError>
    ensures { IfOk result (λ named. named ≡ specs.named_word code.now word.now) }
{
    match word {
        Word::Set { to, value } => Ok(NamedWord::Set {
            to: *to,
            value: copy_operand(alloc, value)?,
        }),
        Word::Op {
            op,
            to,
            left,
            right,
        } => Ok(NamedWord::Op {
            op: *op,
            to: *to,
            left: copy_operand(alloc, left)?,
            right: copy_if(alloc, right)?,
        }),
        Word::Print(value) => Ok(NamedWord::Print(copy_operand(alloc, value)?)),
        Word::Return(value) => Ok(NamedWord::Return(copy_if(alloc, value)?)),
        Word::New { .. } | Word::Array { .. } => named_new(alloc, code, word),
        Word::Call { .. } | Word::Query { .. } | Word::Update { .. } => {
            named_call(alloc, code, word)
        }
        _ => named_look(alloc, code, word),
    }
}
