//! What is open before a statement.
ghost use Rattle.std.specs.Prelude.{◌≡◌, suc, IfOk};
ghost use Rattle.px_blocks.specs.Rules.{side_of};
ghost use Rattle.px_blocks.specs.Cutter.{same_side as is_same_side, made_in as made_of, made_after as made_behind, joined as joined_to};

use crate::placed::Placed;
use crate::side::Side;
use std::alloc::AllocError;

/// So many blocks were begun. The last one is open, at a side, and a return may be its last statement so far; or none is open.
#[derive(Clone, Copy)]
pub enum Shape {
    Open { made: u32, side: Side, over: bool },
    Closed { made: u32 },
}

pub fn same_side(a: Side, b: Side) -> bool
    ensures { result ≡ is_same_side a b }
{
    match a {
        Side::App => matches!(b, Side::App),
        Side::Db => matches!(b, Side::Db),
    }
}

/// The side of a node.
pub fn side_at(placed: &Placed, node: u32) -> Side
    ensures { result ≡ side_of placed.now.sides node }
{
    if node == 0 {
        return Side::App;
    }
    match placed.sides.as_slice().get(node as usize - 1) {
        Some(side) => *side,
        None => Side::App,
    }
}

/// There are no more than can be numbered.
pub fn one_more(made: u32) -> Result<u32, AllocError>
    ensures { IfOk result (λ n. n ≡ suc made) }
{
    if made == u32::MAX {
        return Err(AllocError);
    }
    Ok(made + 1)
}

pub fn made_in(shape: Shape) -> u32
    ensures { result ≡ made_of shape }
{
    match shape {
        Shape::Open {
            made,
            side: _,
            over: _,
        } => made,
        Shape::Closed { made } => made,
    }
}

/// How many blocks were begun behind a statement at a side.
pub fn made_after(side: Side, shape: Shape) -> Result<u32, AllocError>
    ensures { IfOk result (λ n. n ≡ made_behind side shape) }
{
    match shape {
        Shape::Open {
            made,
            side: here,
            over: _,
        } => {
            if same_side(here, side) {
                Ok(made)
            } else {
                one_more(made)
            }
        }
        Shape::Closed { made } => one_more(made),
    }
}

/// Behind a statement after which its block may go on.
pub fn joined(side: Side, over: bool, shape: Shape) -> Result<Shape, AllocError>
    ensures { IfOk result (λ s. s ≡ joined_to side over shape) }
{
    let made = made_after(side, shape)?;
    Ok(Shape::Open { made, side, over })
}
