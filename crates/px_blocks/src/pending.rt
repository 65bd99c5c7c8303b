//! What is left behind a place.
ghost use Rattle.std.specs.Prelude.{◌≡◌, ◌∷◌, ◌++◌, reverse, IfOk, OnOk};
ghost use Rattle.px_blocks.specs.Rules.{exit_to as exit_of, exit_if as exit_after, block_of};
ghost use Rattle.px_blocks.specs.Cutter.{left_before, closing as closing_of};
ghost use Rattle.px_blocks.specs.Seen.{seen};

use crate::block::{Block, Exit, Statement};
use crate::shape::{Shape, one_more, same_side};
use crate::side::Side;
use sqlite_items::Items;
use std::alloc::{AllocError, Global};

/// What is left of the open block, with its exit, or the block to which control comes; and the blocks after.
/// The lists have the last first.
#[derive(Drop)]
pub struct Pending {
    pub rest: Items<Statement>,
    pub exit: Exit,
    pub to: u32,
    pub later: Items<Block>,
}

/// The items the other way round.
pub fn reversed<T: Drop>(alloc: Global, items: Items<T>) -> Result<Items<T>, AllocError>
    ensures { IfOk result (λ r. r ≡ reverse items) }
{
    let mut left = items;
    let mut out = Items::new(alloc);
    while let Some(item) = left.pop() {
        out.push(item)?;
    }
    Ok(out)
}

/// Block 0 is the end of the method.
pub fn exit_to(to: u32) -> Exit
    ensures { result ≡ exit_of to }
{
    if to == 0 {
        Exit::Return
    } else {
        Exit::Next(to)
    }
}

fn exit_if(over: bool, to: u32) -> Exit
    ensures { result ≡ exit_after over to }
{
    if over { Exit::Return } else { exit_to(to) }
}

// A statement begins a block, before what is left of it.
#[tactic(auto, using(crate::proofs::Reversed::push_reversed))]
fn begin(
    alloc: Global,
    method: u16,
    side: Side,
    statement: Statement,
    left: Pending,
) -> Result<Items<Block>, AllocError>
    ensures { IfOk result (λ later. reverse later ≡ block_of method side (statement ∷ reverse left.rest) left.exit ∷ reverse left.later) }
{
    let Pending {
        mut rest,
        exit,
        to: _,
        mut later,
    } = left;
    rest.push(statement)?;
    let statements = reversed(alloc, rest)?;
    later.push(Block {
        method,
        side,
        statements,
        exit,
    })?;
    Ok(later)
}

/// Before a statement, which joins its block or begins it.
#[tactic(auto, using(crate::proofs::Reversed::push_reversed))]
pub fn before(
    alloc: Global,
    method: u16,
    side: Side,
    statement: Statement,
    shape: Shape,
    left: Pending,
) -> Result<Pending, AllocError>
    ensures { IfOk result (λ l. seen l ≡ left_before method side statement shape (seen left)) }
{
    match shape {
        Shape::Open {
            made,
            side: here,
            over,
        } => {
            if same_side(here, side) {
                let Pending {
                    mut rest,
                    exit,
                    to: _,
                    later,
                } = left;
                rest.push(statement)?;
                Ok(Pending {
                    rest,
                    exit,
                    to: 0,
                    later,
                })
            } else {
                let number = one_more(made)?;
                let later = begin(alloc, method, side, statement, left)?;
                Ok(Pending {
                    rest: Items::new(alloc),
                    exit: exit_if(over, number),
                    to: 0,
                    later,
                })
            }
        }
        Shape::Closed { made } => {
            let to = one_more(made)?;
            let later = begin(alloc, method, side, statement, left)?;
            Ok(Pending {
                rest: Items::new(alloc),
                exit: Exit::Return,
                to,
                later,
            })
        }
    }
}

/// The end of a list, at which control goes to a block.
pub fn closing(alloc: Global, shape: Shape, to: u32, later: Items<Block>) -> Pending
    ensures { seen result ≡ closing_of shape to (reverse later) }
{
    match shape {
        Shape::Open {
            made: _,
            side: _,
            over,
        } => Pending {
            rest: Items::new(alloc),
            exit: exit_if(over, to),
            to: 0,
            later,
        },
        Shape::Closed { made: _ } => Pending {
            rest: Items::new(alloc),
            exit: Exit::Return,
            to,
            later,
        },
    }
}
