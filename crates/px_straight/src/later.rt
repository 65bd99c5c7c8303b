//! The first statement that two ends don't take yet.
ghost use Rattle.std.specs.Prelude.{◌≡◌};
ghost use Rattle.px_straight.specs.Taken as taken;

use crate::words::is_taken;
use px_normal::{Code, Tree};

fn line_of(code: &Code, node: u32) -> u32
    ensures { result ≡ taken.line_of code.now node }
{
    if node == 0 {
        return 0;
    }
    match code.nodes.get((node - 1) as usize) {
        None => 0,
        Some(node) => node.line,
    }
}

#[cycle(later)]
#[tactic(auto, using(crate::proofs::Forms::later_taken, crate::proofs::Forms::later_untaken, crate::proofs::Forms::later_if))]
fn later_in(code: &Code, tree: &Tree) -> Option<u32>
    ensures { result ≡ taken.later_in code.now tree.now }
{
    match tree {
        Tree::Do { node, word } => {
            if is_taken(code.main, word) {
                None
            } else {
                Some(line_of(code, *node))
            }
        }
        Tree::If {
            node,
            test: _,
            yes: _,
            no: _,
        } => Some(line_of(code, *node)),
        Tree::Loop {
            first,
            node,
            test: _,
            body: _,
        } => match later_among(code, first.as_slice()) {
            None => Some(line_of(code, *node)),
            Some(line) => Some(line),
        },
    }
}

#[cycle(later)]
fn later_among(code: &Code, trees: &[Tree]) -> Option<u32>
    ensures { result ≡ taken.later_among code.now trees.now }
{
    for tree in trees {
        if let Some(line) = later_in(code, tree) {
            return Some(line);
        }
    }
    None
}

/// The line of the first statement, by the number of its node, that isn't taken.
pub fn later(code: &Code) -> Option<u32>
    ensures { result ≡ taken.later code.now }
{
    for method in code.methods.as_slice() {
        if let Some(line) = later_among(code, method.body.as_slice()) {
            return Some(line);
        }
    }
    None
}
