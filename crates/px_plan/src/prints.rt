//! Statements that print at DB.
ghost use Rattle.std.specs.Prelude.{◌≡◌};
ghost use Rattle.px_blocks.specs.Rules.{side_of};
ghost use Rattle.px_plan.specs.Prints.{print_at, first_in, first_among, first_in_methods, unpinned};

use px_blocks::Side;
use px_normal::{Code, Method, Tree, Word};

// The side of a node, by its number from 1.
fn side_at(sides: &[Side], node: u32) -> Side
    ensures { result ≡ side_of sides.now node }
{
    if node == 0 {
        return Side::App;
    }
    match sides.get(node as usize - 1) {
        Some(side) => *side,
        None => Side::App,
    }
}

fn print_at(sides: &[Side], node: u32, word: &Word) -> Option<u32>
    ensures { result ≡ print_at sides.now node word.now }
{
    match word {
        Word::Print(_) => match side_at(sides, node) {
            Side::App => None,
            Side::Db => Some(node),
        },
        _ => None,
    }
}

#[cycle(first)]
fn first_in(sides: &[Side], tree: &Tree) -> Option<u32>
    ensures { result ≡ first_in sides.now tree.now }
{
    match tree {
        Tree::Do { node, word } => print_at(sides, *node, word),
        Tree::If {
            node: _,
            test: _,
            yes,
            no,
        } => match first_among(sides, yes.as_slice()) {
            Some(node) => Some(node),
            None => first_among(sides, no.as_slice()),
        },
        Tree::Loop {
            first,
            node: _,
            test: _,
            body,
        } => match first_among(sides, first.as_slice()) {
            Some(node) => Some(node),
            None => first_among(sides, body.as_slice()),
        },
    }
}

#[cycle(first)]
fn first_among(sides: &[Side], trees: &[Tree]) -> Option<u32>
    ensures { result ≡ first_among sides.now trees.now }
{
    for tree in trees {
        if let Some(node) = first_in(sides, tree) {
            return Some(node);
        }
    }
    None
}

fn first_in_methods(sides: &[Side], methods: &[Method]) -> Option<u32>
    ensures { result ≡ first_in_methods sides.now methods.now }
{
    for method in methods {
        if let Some(node) = first_among(sides, method.body.as_slice()) {
            return Some(node);
        }
    }
    None
}

/// The first statement that prints at DB, by its node.
pub fn unpinned(code: &Code, sides: &[Side]) -> Option<u32>
    ensures { result ≡ unpinned code.now sides.now }
{
    first_in_methods(sides, code.methods.as_slice())
}
