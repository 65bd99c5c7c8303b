//! Code is cut into blocks.
ghost use Rattle.std.specs.Prelude.{◌≡◌, [], reverse, IfOk};
ghost use Rattle.px_blocks.specs.Rules.{IsCut};
ghost use Rattle.px_blocks.specs.Cutter.{first_block as first_block_of, firsts_from};
ghost use Rattle.px_blocks.specs.Seen.{mades_of, blocks_with};

use crate::block::{Block, Blocks};
use crate::counting::after_all;
use crate::laying::lay_body;
use crate::pending::reversed;
use crate::placed::Placed;
use crate::shape::{Shape, made_in, one_more};
use crate::side::Side;
use px_normal::{Code, Method, Tree};
use sqlite_items::Items;
use std::alloc::{AllocError, Global};

fn first_block(made: u32, body: &[Tree]) -> Result<u32, AllocError>
    ensures { IfOk result (λ n. n ≡ first_block_of made body.now) }
{
    match body {
        [] => Ok(0),
        _ => one_more(made),
    }
}

// The first block of each method.
fn first_blocks(
    alloc: Global,
    placed: &Placed,
    methods: &[Method],
) -> Result<Items<u32>, AllocError>
    ensures { IfOk result (λ firsts. firsts ≡ firsts_from placed.now 0 methods.now) }
{
    let mut firsts = Items::new(alloc);
    let mut made = 0;
    for method in methods {
        let body = method.body.as_slice();
        firsts.push(first_block(made, body)?)?;
        let shape = after_all(placed, body, Shape::Closed { made })?;
        made = made_in(shape);
    }
    Ok(firsts)
}

// How many blocks were begun before each method.
fn mades(alloc: Global, placed: &Placed, methods: &[Method]) -> Result<Items<u32>, AllocError>
    ensures { IfOk result (λ mades. mades ≡ mades_of placed.now 0 methods.now) }
{
    let mut mades = Items::new(alloc);
    let mut made = 0;
    for method in methods {
        mades.push(made)?;
        let shape = after_all(placed, method.body.as_slice(), Shape::Closed { made })?;
        made = made_in(shape);
    }
    Ok(mades)
}

// The blocks, the last first.
fn lay_methods(
    alloc: Global,
    placed: &Placed,
    firsts: &[u32],
    methods: &[Method],
) -> Result<Items<Block>, AllocError>
    ensures { IfOk result (λ blocks. reverse blocks ≡ blocks_with placed.now firsts.now 1 0 methods.now []) }
{
    let mut mades = mades(alloc, placed, methods)?;
    let mut later = Items::new(alloc);
    while let Some(made) = mades.pop() {
        let at = mades.len();
        if at >= u16::MAX as usize {
            return Err(AllocError);
        }
        let number = at as u16 + 1;
        let body = methods[at].body.as_slice();
        let whole = lay_body(alloc, placed, firsts, number, made, body, later)?;
        later = whole.later;
    }
    Ok(later)
}

/// Cuts code into blocks, by the sides of its nodes, with its sends.
#[tactic(auto, using(crate::proofs::LaidMethods::cut_so))]
pub fn cut(alloc: Global, code: &Code, placed: &Placed) -> Result<Blocks, AllocError>
    ensures { IfOk result (λ blocks. IsCut code.now placed.now blocks) }
{
    let methods = code.methods.as_slice();
    let firsts = first_blocks(alloc, placed, methods)?;
    let later = lay_methods(alloc, placed, firsts.as_slice(), methods)?;
    let blocks = reversed(alloc, later)?;
    Ok(Blocks { blocks, firsts })
}
