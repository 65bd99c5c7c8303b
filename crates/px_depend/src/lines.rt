//! The statements of code in one list.
ghost use Rattle.std.specs.Prelude.{◌≡◌, ◌++◌, ◌<◌, ◌^◌, ◌-◌, ◌∷◌, [], length, OnOk, IfOk};
ghost use Rattle.px_depend.specs.Lines.{does_of, line, tree_lines, trees_lines, methods_lines};

use px_normal::{Method, Tree, Word};
use std::alloc::{AllocError, Global};

/// What a statement does to nodes other than that which holds it.
#[derive(Clone, Copy, Debug, PartialEq, Eq)]
pub enum Does {
    /// Asks the tables.
    Asks,
    /// Calls the method of this number.
    Calls(u16),
    /// Returns a value.
    Gives,
    Other,
}

#[derive(Clone, Copy, Debug, PartialEq, Eq)]
pub struct Line {
    pub method: u16,
    /// The node that holds the statement.
    pub by: u32,
    /// The statement's own.
    pub node: u32,
    pub does: Does,
}

fn does_of(word: &Word) -> Does
    ensures { result ≡ does_of word.now }
{
    match word {
        Word::Call {
            to: _,
            of: _,
            method,
            args: _,
        } => Does::Calls(*method),
        Word::Query {
            to: _,
            statement: _,
            site: _,
            params: _,
        } => Does::Asks,
        Word::Update {
            to: _,
            statement: _,
            params: _,
        } => Does::Asks,
        Word::Return(Some(_)) => Does::Gives,
        _ => Does::Other,
    }
}

fn add(method: u16, by: u32, node: u32, does: Does, into: &mut Vec<Line>) -> Result<(), AllocError>
    ensures { OnOk result (into.new.items ≡ into.old.items ++ line method by node does ∷ []) }
{
    into.push(Line {
        method,
        by,
        node,
        does,
    })?;
    Ok(())
}

#[cycle(walk)]
fn tree(method: u16, by: u32, tree_of: &Tree, into: &mut Vec<Line>) -> Result<(), AllocError>
    ensures { OnOk result (into.new.items ≡ into.old.items ++ tree_lines method tree_of.now by) }
{
    match tree_of {
        Tree::Do { node, word } => add(method, by, *node, does_of(word), into),
        Tree::If {
            node,
            test: _,
            yes,
            no,
        } => {
            add(method, by, *node, Does::Other, into)?;
            trees(method, *node, yes.as_slice(), into)?;
            trees(method, *node, no.as_slice(), into)
        }
        Tree::Loop {
            first,
            node,
            test: _,
            body,
        } => {
            trees(method, by, first.as_slice(), into)?;
            add(method, by, *node, Does::Other, into)?;
            trees(method, *node, body.as_slice(), into)
        }
    }
}

#[cycle(walk)]
fn trees(method: u16, by: u32, list: &[Tree], into: &mut Vec<Line>) -> Result<(), AllocError>
    ensures { OnOk result (into.new.items ≡ into.old.items ++ trees_lines method list.now by) }
{
    for item in list {
        tree(method, by, item, into)?;
    }
    Ok(())
}

/// The lines of all methods, in order.
pub fn lines_of(alloc: Global, methods: &[Method]) -> Result<Vec<Line>, AllocError>
    requires { length methods.now < 2 ^ 16 - 1 }
    ensures { IfOk result (λ lines. lines.items ≡ methods_lines 1 methods.now) }
{
    let mut lines = Vec::new(alloc);
    let mut number: u16 = 1;
    for method in methods {
        trees(number, method.node, method.body.as_slice(), &mut lines)?;
        number += 1;
    }
    Ok(lines)
}
