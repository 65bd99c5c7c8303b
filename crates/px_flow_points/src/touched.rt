//! What statements read and write.
ghost use Rattle.std.specs.Prelude.{◌≡◌, ◌++◌, ◌<◌, ◌^◌, ◌-◌, length, OnOk, IfOk};
ghost use Rattle.px_flow_points.specs.Touched.{operand_set, reads_of, writes_of, part_of_word};
ghost use Rattle.px_flow_points.specs.ByNode.{sites_of, touches_of, word_touches, tree_touches, trees_touches, methods_touches};

use crate::pairs::Touch;
use crate::part::{Pair, Part};
use crate::sets::Sets;
use px_normal::{Method, Operand, Tree, Word};
use std::alloc::{AllocError, Global};
use std::slice;

fn part_of(word: &Word) -> Part
    ensures { result ≡ part_of_word word.now }
{
    match word {
        Word::Get {
            to: _,
            of: _,
            class: _,
            field,
        } => Part::Field(*field),
        Word::Put {
            of: _,
            class: _,
            field,
            value: _,
        } => Part::Field(*field),
        _ => Part::Elements,
    }
}

fn operand<'a>(sets: &'a Sets, method: u16, operand: &Operand) -> &'a [u16]
    ensures { result.now ≡ operand_set sets.now method operand.now }
{
    match operand {
        Operand::Slot(slot) => sets.slot(method, *slot),
        Operand::Literal(_) => &[],
    }
}

// The sites, in rising order, whose part a statement of a method may read.
fn reads<'a>(sets: &'a Sets, method: u16, word: &Word) -> &'a [u16]
    ensures { result.now ≡ reads_of sets.now method word.now }
{
    match word {
        Word::Get {
            to: _,
            of,
            class: _,
            field: _,
        } => operand(sets, method, of),
        Word::Load {
            to: _,
            of,
            index: _,
        } => operand(sets, method, of),
        Word::Next { to: _, of } => operand(sets, method, of),
        Word::Long {
            to: _,
            of,
            column: _,
        } => operand(sets, method, of),
        Word::Text {
            to: _,
            of,
            column: _,
        } => operand(sets, method, of),
        _ => &[],
    }
}

// The sites, in rising order, whose part a statement of a method may write.
fn writes<'a>(sets: &'a Sets, method: u16, word: &'a Word) -> &'a [u16]
    ensures { result.now ≡ writes_of sets.now method word.now }
{
    match word {
        Word::Put {
            of,
            class: _,
            field: _,
            value: _,
        } => operand(sets, method, of),
        Word::Store {
            of,
            index: _,
            value: _,
        } => operand(sets, method, of),
        Word::Next { to: _, of } => operand(sets, method, of),
        Word::Query {
            to: _,
            statement: _,
            site,
            params: _,
        } => slice::from_ref(site),
        _ => &[],
    }
}

/// Whether what is read is asked for, or what is written.
#[derive(Clone, Copy, Debug, PartialEq, Eq)]
pub enum Access {
    Reads,
    Writes,
}

fn sites<'a>(sets: &'a Sets, access: Access, method: u16, word: &'a Word) -> &'a [u16]
    ensures { result.now ≡ sites_of sets.now access method word.now }
{
    match access {
        Access::Reads => reads(sets, method, word),
        Access::Writes => writes(sets, method, word),
    }
}

fn touch(node: u32, part: Part, sites: &[u16], into: &mut Vec<Touch>) -> Result<(), AllocError>
    ensures { OnOk result (into.new.items ≡ into.old.items ++ touches_of node part sites.now) }
{
    for site in sites {
        into.push(Touch {
            node,
            pair: Pair { site: *site, part },
        })?;
    }
    Ok(())
}

fn statement(
    sets: &Sets,
    access: Access,
    method: u16,
    node: u32,
    word: &Word,
    into: &mut Vec<Touch>,
) -> Result<(), AllocError>
    ensures { OnOk result (into.new.items ≡ into.old.items ++ word_touches sets.now access method node word.now) }
{
    touch(node, part_of(word), sites(sets, access, method, word), into)
}

#[cycle(touching)]
fn tree(
    sets: &Sets,
    access: Access,
    method: u16,
    tree_of: &Tree,
    into: &mut Vec<Touch>,
) -> Result<(), AllocError>
    ensures { OnOk result (into.new.items ≡ into.old.items ++ tree_touches sets.now access method tree_of.now) }
{
    match tree_of {
        Tree::Do { node, word } => statement(sets, access, method, *node, word, into),
        Tree::If {
            node: _,
            test: _,
            yes,
            no,
        } => {
            trees(sets, access, method, yes.as_slice(), into)?;
            trees(sets, access, method, no.as_slice(), into)
        }
        Tree::Loop {
            first,
            node: _,
            test: _,
            body,
        } => {
            trees(sets, access, method, first.as_slice(), into)?;
            trees(sets, access, method, body.as_slice(), into)
        }
    }
}

#[cycle(touching)]
fn trees(
    sets: &Sets,
    access: Access,
    method: u16,
    list: &[Tree],
    into: &mut Vec<Touch>,
) -> Result<(), AllocError>
    ensures { OnOk result (into.new.items ≡ into.old.items ++ trees_touches sets.now access method list.now) }
{
    for item in list {
        tree(sets, access, method, item, into)?;
    }
    Ok(())
}

/// What the statements of all methods read, or what they write.
pub fn touches(
    alloc: Global,
    sets: &Sets,
    access: Access,
    methods: &[Method],
) -> Result<Vec<Touch>, AllocError>
    requires { length methods.now < 2 ^ 16 - 1 }
    ensures { IfOk result (λ list. list.items ≡ methods_touches sets.now access 1 methods.now) }
{
    let mut list = Vec::new(alloc);
    let mut number: u16 = 1;
    for method in methods {
        trees(sets, access, number, method.body.as_slice(), &mut list)?;
        number += 1;
    }
    Ok(list)
}
