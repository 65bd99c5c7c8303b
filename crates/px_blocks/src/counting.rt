//! What is open behind trees.
ghost use Rattle.std.specs.Prelude.{◌≡◌, IfOk};
ghost use Rattle.px_normal.specs.Words.{is_return as is_return_word};
ghost use Rattle.px_blocks.specs.Cutter.{cut_of, cuts_of, word_cut, kind_of, after_all as after_each};
ghost use Rattle.px_blocks.specs.Seen.{after_word as after_of_word};

use crate::placed::Placed;
use crate::shape::{Shape, joined, made_after, made_in, side_at};
use crate::side::Side;
use px_normal::{Tree, Word};
use std::alloc::AllocError;

fn is_return(word: &Word) -> bool
    ensures { result ≡ is_return_word word.now }
{
    matches!(word, Word::Return(_))
}

fn after_word(side: Side, word: &Word, shape: Shape) -> Result<Shape, AllocError>
    ensures { IfOk result (λ s. s ≡ after_of_word side word.now shape) }
{
    match word {
        Word::Call { .. } | Word::Query { .. } | Word::Update { .. } => {
            let made = made_after(side, shape)?;
            Ok(Shape::Closed { made })
        }
        _ => joined(side, is_return(word), shape),
    }
}

#[cycle(after)]
#[tactic(auto, using(crate::proofs::AfterForms::after_do, crate::proofs::AfterForms::after_if, crate::proofs::AfterForms::after_loop))]
pub fn after(placed: &Placed, tree: &Tree, shape: Shape) -> Result<Shape, AllocError>
    ensures { IfOk result (λ s. s ≡ (cut_of placed.now tree.now).after shape) }
{
    match tree {
        Tree::Do { node, word } => after_word(side_at(placed, *node), word, shape),
        Tree::If {
            node,
            test: _,
            yes,
            no,
        } => {
            let made = made_after(side_at(placed, *node), shape)?;
            let behind_yes = after_all(placed, yes.as_slice(), Shape::Closed { made })?;
            let made = made_in(behind_yes);
            let behind_no = after_all(placed, no.as_slice(), Shape::Closed { made })?;
            let made = made_in(behind_no);
            Ok(Shape::Closed { made })
        }
        Tree::Loop {
            first,
            node,
            test: _,
            body,
        } => {
            let made = made_in(shape);
            let at_test = after_all(placed, first.as_slice(), Shape::Closed { made })?;
            let made = made_after(side_at(placed, *node), at_test)?;
            let behind_body = after_all(placed, body.as_slice(), Shape::Closed { made })?;
            let made = made_in(behind_body);
            Ok(Shape::Closed { made })
        }
    }
}

#[cycle(after)]
pub fn after_all(placed: &Placed, trees: &[Tree], shape: Shape) -> Result<Shape, AllocError>
    ensures { IfOk result (λ s. s ≡ after_each (cuts_of placed.now trees.now) shape) }
{
    let mut shape = shape;
    for tree in trees {
        shape = after(placed, tree, shape)?;
    }
    Ok(shape)
}
