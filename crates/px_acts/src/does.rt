//! What a word does.
ghost use Rattle.std.specs.Prelude.{◌≡◌, IfOk, OnErr};
ghost use Rattle.px_normal.specs.declared.code.Code.{Code as CodeData};
ghost use Rattle.px_normal.specs.Words.{does_of};
ghost use Rattle.px_acts.specs.Slots.{values_in};
ghost use Rattle.px_acts.specs.Did.{Did, Shared, firsts_of};

use crate::acting::{
    array, element, field, length, long_column, next_row, object, operator, put, set, store_at,
    text_column,
};
use crate::asking::operates;
use crate::calling::invokes;
use crate::came::comes;
use crate::frame::Slot;
use crate::place::Place;
use crate::printing::print;
use crate::prints::Prints;
use crate::store::Store;
use px_normal::{Code, Operand, Word};
use px_value::{TableOp, Thrown, Value, Values};
use std::alloc::{AllocError, Global};

#[derive(Drop)]
pub enum Does {
    /// It came to a value or a throw, and wrote a cell, if it did.
    Comes {
        value: Result<Value, Thrown>,
        wrote: Option<Place>,
    },
    /// It asks the tables, and has done nothing yet.
    Operates(TableOp),
    /// It calls a method on `this` and the arguments.
    Invokes {
        method: u16,
        values: Values,
    },
}

// A return comes to its value, or to null.
fn returned(alloc: Global, slots: &[Slot], value: &Option<Operand>) -> Result<Does, AllocError>
    ensures { (code : CodeData) (shared : Shared) → IfOk result (λ d. Did (firsts_of code) (does_of code (Word.Return value.now) (values_in slots.now)) shared d shared) }
{
    match value {
        None => Ok(comes(Ok(Value::Null))),
        Some(value) => set(alloc, slots, value),
    }
}

/// Does what a word does. Where memory runs out all is as before.
pub fn do_word(
    alloc: Global,
    code: &Code,
    store: &mut Store,
    prints: &mut Prints,
    word: &Word,
    slots: &[Slot],
) -> Result<Does, AllocError>
    ensures did { IfOk result (λ d. Did (firsts_of code.now) (does_of code.now word.now (values_in slots.now)) (record { heap = store.old.heap; prints = prints.old }) d (record { heap = store.new.heap; prints = prints.new })) }
    ensures closed { store.new.closed ≡ store.old.closed }
    ensures heap { OnErr result (store.new.heap ≡ store.old.heap) }
    ensures prints { OnErr result (prints.new ≡ prints.old) }
{
    match word {
        Word::Set { to: _, value } => set(alloc, slots, value),
        Word::Op {
            op,
            to: _,
            left,
            right,
        } => operator(alloc, slots, *op, left, right),
        Word::Get {
            to: _,
            of,
            class: _,
            field: place,
        } => field(alloc, store, slots, of, *place),
        Word::Put {
            of,
            class: _,
            field,
            value,
        } => put(alloc, store, slots, of, *field, value),
        Word::Load { to: _, of, index } => element(alloc, store, slots, of, index),
        Word::Store { of, index, value } => store_at(alloc, store, slots, of, index, value),
        Word::Len { to: _, of } => length(alloc, store, slots, of),
        Word::New { to: _, class, site } => object(alloc, code, store, *class, *site),
        Word::Array {
            to: _,
            element: ty,
            length,
            site,
        } => array(alloc, store, slots, *ty, *site, length),
        Word::Call {
            to: _,
            of,
            method,
            args,
        } => invokes(alloc, slots, of, *method, args.as_slice()),
        Word::Query {
            to: _,
            statement,
            site: _,
            params,
        } => operates(alloc, code, slots, *statement, params.as_slice()),
        Word::Update {
            to: _,
            statement,
            params,
        } => operates(alloc, code, slots, *statement, params.as_slice()),
        Word::Next { to: _, of } => next_row(alloc, code, store, slots, of),
        Word::Long { to: _, of, column } => long_column(alloc, code, store, slots, of, column),
        Word::Text { to: _, of, column } => text_column(alloc, code, store, slots, of, column),
        Word::Print(value) => print(alloc, slots, prints, value),
        Word::Return(value) => returned(alloc, slots, value),
    }
}
