//! Statements that a slot comes to.
ghost use Rattle.std.specs.Prelude.{◌≡◌, ◌++◌, OnOk};
ghost use Rattle.px_depend.specs.Uses.{used, used_or, all_used, uses};
ghost use Rattle.px_normal.specs.Words.{to_of};
ghost use Rattle.px_depend.specs.Places.{places_at};

use px_normal::{Operand, Word};
use std::alloc::AllocError;

/// A slot, and a statement that writes it, or one that reads it, by its node.
#[derive(Clone, Copy, Debug, PartialEq, Eq)]
pub struct Place {
    pub slot: u16,
    pub node: u32,
}

/// The use of an operand; `this` is at both ends.
pub fn add_use(node: u32, operand: &Operand, into: &mut Vec<Place>) -> Result<(), AllocError>
    ensures { OnOk result (into.new.items ≡ into.old.items ++ places_at node (used operand.now)) }
{
    if let Operand::Slot(slot) = operand {
        if *slot != 0 {
            into.push(Place { slot: *slot, node })?;
        }
    }
    Ok(())
}

fn add_two(
    node: u32,
    first: &Operand,
    second: &Operand,
    into: &mut Vec<Place>,
) -> Result<(), AllocError>
    ensures { OnOk result (into.new.items ≡ into.old.items ++ places_at node (used first.now ++ used second.now)) }
{
    add_use(node, first, into)?;
    add_use(node, second, into)
}

fn add_three(
    node: u32,
    first: &Operand,
    second: &Operand,
    third: &Operand,
    into: &mut Vec<Place>,
) -> Result<(), AllocError>
    ensures { OnOk result (into.new.items ≡ into.old.items ++ places_at node ((used first.now ++ used second.now) ++ used third.now)) }
{
    add_two(node, first, second, into)?;
    add_use(node, third, into)
}

fn add_or(node: u32, operand: &Option<Operand>, into: &mut Vec<Place>) -> Result<(), AllocError>
    ensures { OnOk result (into.new.items ≡ into.old.items ++ places_at node (used_or operand.now)) }
{
    match operand {
        Some(operand) => add_use(node, operand, into),
        None => Ok(()),
    }
}

fn add_first_or(
    node: u32,
    first: &Operand,
    second: &Option<Operand>,
    into: &mut Vec<Place>,
) -> Result<(), AllocError>
    ensures { OnOk result (into.new.items ≡ into.old.items ++ places_at node (used first.now ++ used_or second.now)) }
{
    add_use(node, first, into)?;
    add_or(node, second, into)
}

fn add_all(node: u32, operands: &[Operand], into: &mut Vec<Place>) -> Result<(), AllocError>
    ensures { OnOk result (into.new.items ≡ into.old.items ++ places_at node (all_used operands.now)) }
{
    for operand in operands {
        add_use(node, operand, into)?;
    }
    Ok(())
}

fn add_first_and(
    node: u32,
    first: &Operand,
    rest: &[Operand],
    into: &mut Vec<Place>,
) -> Result<(), AllocError>
    ensures { OnOk result (into.new.items ≡ into.old.items ++ places_at node (used first.now ++ all_used rest.now)) }
{
    add_use(node, first, into)?;
    add_all(node, rest, into)
}

/// The uses of a statement.
pub fn add_uses(node: u32, word: &Word, into: &mut Vec<Place>) -> Result<(), AllocError>
    ensures { OnOk result (into.new.items ≡ into.old.items ++ places_at node (uses word.now)) }
{
    match word {
        Word::Set { to: _, value } => add_use(node, value, into),
        Word::Op {
            op: _,
            to: _,
            left,
            right,
        } => add_first_or(node, left, right, into),
        Word::Get {
            to: _,
            of,
            class: _,
            field: _,
        } => add_use(node, of, into),
        Word::Put {
            of,
            class: _,
            field: _,
            value,
        } => add_two(node, of, value, into),
        Word::Load { to: _, of, index } => add_two(node, of, index, into),
        Word::Store { of, index, value } => add_three(node, of, index, value, into),
        Word::Len { to: _, of } => add_use(node, of, into),
        Word::New {
            to: _,
            class: _,
            site: _,
        } => Ok(()),
        Word::Array {
            to: _,
            element: _,
            length,
            site: _,
        } => add_use(node, length, into),
        Word::Call {
            to: _,
            of,
            method: _,
            args,
        } => add_first_and(node, of, args.as_slice(), into),
        Word::Query {
            to: _,
            statement: _,
            site: _,
            params,
        } => add_all(node, params.as_slice(), into),
        Word::Update {
            to: _,
            statement: _,
            params,
        } => add_all(node, params.as_slice(), into),
        Word::Next { to: _, of } => add_use(node, of, into),
        Word::Long { to: _, of, column } => add_two(node, of, column, into),
        Word::Text { to: _, of, column } => add_two(node, of, column, into),
        Word::Print(value) => add_use(node, value, into),
        Word::Return(value) => add_or(node, value, into),
    }
}

/// The slot that a statement writes.
pub fn written(word: &Word) -> Option<u16>
    ensures { result ≡ to_of word.now }
{
    match word {
        Word::Set { to, value: _ } => Some(*to),
        Word::Op {
            op: _,
            to,
            left: _,
            right: _,
        } => Some(*to),
        Word::Get {
            to,
            of: _,
            class: _,
            field: _,
        } => Some(*to),
        Word::Load {
            to,
            of: _,
            index: _,
        } => Some(*to),
        Word::Len { to, of: _ } => Some(*to),
        Word::New {
            to,
            class: _,
            site: _,
        } => Some(*to),
        Word::Array {
            to,
            element: _,
            length: _,
            site: _,
        } => Some(*to),
        Word::Call {
            to,
            of: _,
            method: _,
            args: _,
        } => *to,
        Word::Query {
            to,
            statement: _,
            site: _,
            params: _,
        } => Some(*to),
        Word::Update {
            to,
            statement: _,
            params: _,
        } => Some(*to),
        Word::Next { to, of: _ } => Some(*to),
        Word::Long {
            to,
            of: _,
            column: _,
        } => Some(*to),
        Word::Text {
            to,
            of: _,
            column: _,
        } => Some(*to),
        _ => None,
    }
}
