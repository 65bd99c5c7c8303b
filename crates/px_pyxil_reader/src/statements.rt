//! Statements.
ghost use Rattle.px_pyxil_reader.specs.Reading.{Gives};
ghost use Rattle.px_pyxil_reader.specs.Statements.{set_of, op_statement_of, get_of, put_of, load_of, store_of, len_of, new_of, array_of, call_of, query_of, update_of, next_of, long_column_of, text_column_of, print_of, return_of, word_behind};

use crate::operands::{last_operand, last_operand_if, last_operands, take_operand};
use crate::parts::{
    take_class, take_element, take_member, take_op, take_slot, take_slot_or_none, take_u16,
};
use crate::unread::Unread;
use crate::verbs::Verb;
use crate::words::take_end;
use px_normal::Operand;
use px_pyxil::Word;
use std::alloc::Global;

#[tactic(auto, unfolding(crate::specs::Statements::set_of))]
fn set(alloc: Global, from: &[u8]) -> Result<Word, Unread>
    ensures { Gives (λ x. x) result (set_of from.now) }
{
    let (to, rest) = take_slot(from)?;
    let (value, rest) = take_operand(alloc, rest)?;
    take_end(rest)?;
    Ok(Word::Set { to, value })
}

#[tactic(auto, unfolding(crate::specs::Statements::op_statement_of))]
fn op_statement(alloc: Global, from: &[u8]) -> Result<Word, Unread>
    ensures { Gives (λ x. x) result (op_statement_of from.now) }
{
    let (op, rest) = take_op(from)?;
    let (to, rest) = take_slot(rest)?;
    let (left, rest) = take_operand(alloc, rest)?;
    let right = last_operand_if(alloc, rest)?;
    Ok(Word::Op {
        op,
        to,
        left,
        right,
    })
}

#[tactic(auto, unfolding(crate::specs::Statements::get_of))]
fn get(alloc: Global, from: &[u8]) -> Result<Word, Unread>
    ensures { Gives (λ x. x) result (get_of from.now) }
{
    let (to, rest) = take_slot(from)?;
    let (of, rest) = take_operand(alloc, rest)?;
    let (field, rest) = take_member(alloc, rest)?;
    take_end(rest)?;
    Ok(Word::Get { to, of, field })
}

#[tactic(auto, unfolding(crate::specs::Statements::put_of))]
fn put(alloc: Global, from: &[u8]) -> Result<Word, Unread>
    ensures { Gives (λ x. x) result (put_of from.now) }
{
    let (of, rest) = take_operand(alloc, from)?;
    let (field, rest) = take_member(alloc, rest)?;
    let (value, rest) = take_operand(alloc, rest)?;
    take_end(rest)?;
    Ok(Word::Put { of, field, value })
}

#[tactic(auto, unfolding(crate::specs::Statements::load_of))]
fn load(alloc: Global, from: &[u8]) -> Result<Word, Unread>
    ensures { Gives (λ x. x) result (load_of from.now) }
{
    let (to, rest) = take_slot(from)?;
    let (of, rest) = take_operand(alloc, rest)?;
    let (index, rest) = take_operand(alloc, rest)?;
    take_end(rest)?;
    Ok(Word::Load { to, of, index })
}

#[tactic(auto, unfolding(crate::specs::Statements::store_of))]
fn store(alloc: Global, from: &[u8]) -> Result<Word, Unread>
    ensures { Gives (λ x. x) result (store_of from.now) }
{
    let (of, rest) = take_operand(alloc, from)?;
    let (index, rest) = take_operand(alloc, rest)?;
    let (value, rest) = take_operand(alloc, rest)?;
    take_end(rest)?;
    Ok(Word::Store { of, index, value })
}

#[tactic(auto, unfolding(crate::specs::Statements::len_of))]
fn len(alloc: Global, from: &[u8]) -> Result<Word, Unread>
    ensures { Gives (λ x. x) result (len_of from.now) }
{
    let (to, rest) = take_slot(from)?;
    let (of, rest) = take_operand(alloc, rest)?;
    take_end(rest)?;
    Ok(Word::Len { to, of })
}

#[tactic(auto, unfolding(crate::specs::Statements::new_of))]
fn new_object(alloc: Global, from: &[u8]) -> Result<Word, Unread>
    ensures { Gives (λ x. x) result (new_of from.now) }
{
    let (to, rest) = take_slot(from)?;
    let (class, rest) = take_class(alloc, rest)?;
    let (site, rest) = take_u16(rest)?;
    take_end(rest)?;
    Ok(Word::New { to, class, site })
}

#[tactic(auto, unfolding(crate::specs::Statements::array_of))]
fn array(alloc: Global, from: &[u8]) -> Result<Word, Unread>
    ensures { Gives (λ x. x) result (array_of from.now) }
{
    let (to, rest) = take_slot(from)?;
    let (element, rest) = take_element(alloc, rest)?;
    let (length, rest) = take_operand(alloc, rest)?;
    let (site, rest) = take_u16(rest)?;
    take_end(rest)?;
    Ok(Word::Array {
        to,
        element,
        length,
        site,
    })
}

#[tactic(auto, unfolding(crate::specs::Statements::call_of))]
fn call(alloc: Global, from: &[u8]) -> Result<Word, Unread>
    ensures { Gives (λ x. x) result (call_of from.now) }
{
    let (to, rest) = take_slot_or_none(from)?;
    let (of, rest) = take_operand(alloc, rest)?;
    let (method, rest) = take_member(alloc, rest)?;
    let args = last_operands(alloc, rest)?;
    Ok(Word::Call {
        to,
        of,
        method,
        args,
    })
}

#[tactic(auto, unfolding(crate::specs::Statements::query_of))]
fn query(alloc: Global, from: &[u8]) -> Result<Word, Unread>
    ensures { Gives (λ x. x) result (query_of from.now) }
{
    let (to, rest) = take_slot(from)?;
    let (statement, rest) = take_u16(rest)?;
    let (site, rest) = take_u16(rest)?;
    let params = last_operands(alloc, rest)?;
    Ok(Word::Query {
        to,
        statement,
        site,
        params,
    })
}

#[tactic(auto, unfolding(crate::specs::Statements::update_of))]
fn update(alloc: Global, from: &[u8]) -> Result<Word, Unread>
    ensures { Gives (λ x. x) result (update_of from.now) }
{
    let (to, rest) = take_slot(from)?;
    let (statement, rest) = take_u16(rest)?;
    let params = last_operands(alloc, rest)?;
    Ok(Word::Update {
        to,
        statement,
        params,
    })
}

#[tactic(auto, unfolding(crate::specs::Statements::next_of))]
fn next_row(alloc: Global, from: &[u8]) -> Result<Word, Unread>
    ensures { Gives (λ x. x) result (next_of from.now) }
{
    let (to, rest) = take_slot(from)?;
    let (of, rest) = take_operand(alloc, rest)?;
    take_end(rest)?;
    Ok(Word::Next { to, of })
}

#[tactic(auto, unfolding(crate::specs::Statements::long_column_of))]
fn long_column(alloc: Global, from: &[u8]) -> Result<Word, Unread>
    ensures { Gives (λ x. x) result (long_column_of from.now) }
{
    let (to, rest) = take_slot(from)?;
    let (of, rest) = take_operand(alloc, rest)?;
    let (column, rest) = take_operand(alloc, rest)?;
    take_end(rest)?;
    Ok(Word::Long { to, of, column })
}

#[tactic(auto, unfolding(crate::specs::Statements::text_column_of))]
fn text_column(alloc: Global, from: &[u8]) -> Result<Word, Unread>
    ensures { Gives (λ x. x) result (text_column_of from.now) }
{
    let (to, rest) = take_slot(from)?;
    let (of, rest) = take_operand(alloc, rest)?;
    let (column, rest) = take_operand(alloc, rest)?;
    take_end(rest)?;
    Ok(Word::Text { to, of, column })
}

#[tactic(auto, unfolding(crate::specs::Statements::print_of))]
fn print(alloc: Global, from: &[u8]) -> Result<Word, Unread>
    ensures { Gives (λ x. x) result (print_of from.now) }
{
    Ok(Word::Print(last_operand(alloc, from)?))
}

#[tactic(auto, unfolding(crate::specs::Statements::return_of))]
fn return_statement(alloc: Global, from: &[u8]) -> Result<Word, Unread>
    ensures { Gives (λ x. x) result (return_of from.now) }
{
    Ok(Word::Return(last_operand_if(alloc, from)?))
}

/// The statement whose first word this was.
pub(crate) fn read_statement(alloc: Global, verb: Verb, from: &[u8]) -> Result<Word, Unread>
    ensures { Gives (λ x. x) result (word_behind verb from.now) }
{
    match verb {
        Verb::Set => set(alloc, from),
        Verb::Op => op_statement(alloc, from),
        Verb::Get => get(alloc, from),
        Verb::Put => put(alloc, from),
        Verb::Load => load(alloc, from),
        Verb::Store => store(alloc, from),
        Verb::Len => len(alloc, from),
        Verb::New => new_object(alloc, from),
        Verb::Array => array(alloc, from),
        Verb::Call => call(alloc, from),
        Verb::Query => query(alloc, from),
        Verb::Update => update(alloc, from),
        Verb::Next => next_row(alloc, from),
        Verb::Long => long_column(alloc, from),
        Verb::Text => text_column(alloc, from),
        Verb::Print => print(alloc, from),
        Verb::Return => return_statement(alloc, from),
    }
}
