//! The sends that statements ask for.
ghost use Rattle.std.specs.Prelude.{◌≡◌, ◌++◌, OnOk, IfOk};
ghost use Rattle.px_sync.specs.Sends.{kind_at};
ghost use Rattle.px_sync.specs.Found.{placing, needs, sent_of, sent_by, word_sent, tree_sent, trees_sent, methods_sent};

use crate::homes::field_home;
use crate::kept::Kept;
use crate::side::{other, side_at};
use px_blocks::{SendKind, Side};
use px_flow_points::Points;
use px_normal::{Code, Method, Operand, Tree, Word};
use std::alloc::{AllocError, Global};

/// A send after the statement of a node, of the object in a slot.
#[derive(Clone, Copy, Debug, PartialEq, Eq)]
pub struct Sent {
    pub node: u32,
    pub kind: SendKind,
    pub slot: u16,
}

fn kind_at(side: Side) -> SendKind
    ensures { result ≡ kind_at side }
{
    match side {
        Side::App => SendKind::App,
        Side::Db => SendKind::Db,
    }
}

fn sent_of(node: u32, kind: SendKind, object: &Operand) -> Option<Sent>
    ensures { result ≡ sent_of node kind object.now }
{
    match object {
        Operand::Slot(slot) => Some(Sent {
            node,
            kind,
            slot: *slot,
        }),
        Operand::Literal(_) => None,
    }
}

// The send after a word, wherever one is needed.
fn sent_by(code: &Code, sides: &[Side], node: u32, word: &Word) -> Option<Sent>
    ensures { result ≡ sent_by code.now sides.now node word.now }
{
    match word {
        Word::Put {
            of,
            class,
            field,
            value: _,
        } => sent_of(node, kind_at(field_home(code, sides, *class, *field)), of),
        Word::Store {
            of,
            index: _,
            value: _,
        } => sent_of(node, SendKind::Native, of),
        Word::Next { to: _, of } => sent_of(node, SendKind::Native, of),
        Word::Query {
            to,
            statement: _,
            site: _,
            params: _,
        } => Some(Sent {
            node,
            kind: SendKind::Native,
            slot: *to,
        }),
        _ => None,
    }
}

// Whether the statement of a node may write what the other side keeps.
fn needs(code: &Code, sides: &[Side], kept: &Kept, points: &Points, node: u32) -> bool
    ensures { result ≡ needs code.now sides.now kept.now points.now.writes node }
{
    let there = other(side_at(sides, node));
    kept.keeps_any(code, sides, there, points.writes(node))
}

fn word(
    code: &Code,
    sides: &[Side],
    kept: &Kept,
    points: &Points,
    node: u32,
    word_of: &Word,
    into: &mut Vec<Sent>,
) -> Result<(), AllocError>
    ensures { OnOk result (into.new.items ≡ into.old.items ++ word_sent (placing code.now sides.now kept.now points.now) node word_of.now) }
{
    if !needs(code, sides, kept, points, node) {
        return Ok(());
    }
    if let Some(sent) = sent_by(code, sides, node, word_of) {
        into.push(sent)?;
    }
    Ok(())
}

#[cycle(sending)]
fn tree(
    code: &Code,
    sides: &[Side],
    kept: &Kept,
    points: &Points,
    tree_of: &Tree,
    into: &mut Vec<Sent>,
) -> Result<(), AllocError>
    ensures { OnOk result (into.new.items ≡ into.old.items ++ tree_sent (placing code.now sides.now kept.now points.now) tree_of.now) }
{
    match tree_of {
        Tree::Do {
            node,
            word: word_of,
        } => word(code, sides, kept, points, *node, word_of, into),
        Tree::If {
            node: _,
            test: _,
            yes,
            no,
        } => {
            trees(code, sides, kept, points, yes.as_slice(), into)?;
            trees(code, sides, kept, points, no.as_slice(), into)
        }
        Tree::Loop {
            first,
            node: _,
            test: _,
            body,
        } => {
            trees(code, sides, kept, points, first.as_slice(), into)?;
            trees(code, sides, kept, points, body.as_slice(), into)
        }
    }
}

#[cycle(sending)]
fn trees(
    code: &Code,
    sides: &[Side],
    kept: &Kept,
    points: &Points,
    list: &[Tree],
    into: &mut Vec<Sent>,
) -> Result<(), AllocError>
    ensures { OnOk result (into.new.items ≡ into.old.items ++ trees_sent (placing code.now sides.now kept.now points.now) list.now) }
{
    for item in list {
        tree(code, sides, kept, points, item, into)?;
    }
    Ok(())
}

/// The sends that the statements of all methods ask for, in order.
pub fn all_sent(
    alloc: Global,
    code: &Code,
    sides: &[Side],
    kept: &Kept,
    points: &Points,
) -> Result<Vec<Sent>, AllocError>
    ensures { IfOk result (λ list. list.items ≡ methods_sent (placing code.now sides.now kept.now points.now) code.now.methods) }
{
    let mut list = Vec::new(alloc);
    for method in code.methods.as_slice() {
        trees(code, sides, kept, points, method.body.as_slice(), &mut list)?;
    }
    Ok(list)
}
