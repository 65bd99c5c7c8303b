//! Blocks: longest stretches of statements at one side.
ghost use Rattle.std.specs.Prelude.{◌≡◌, ◌+◌, List, [], ◌∷◌, ◌++◌, length, IfOk, OnOk};
ghost use Rattle.px_code.specs.declared.block.Statement.{Statement as StatementData};
ghost use Rattle.px_code.specs.Machine.{is_return as is_return_word};
ghost use Rattle.px_code.specs.Cut.{ends_in_return as end_in_return};
ghost use Rattle.px_compile.specs.Cutting.{block_of, cut_after, cut_body as blocks_of_body, first_side as first_side_of};

use crate::facts::Facts;
use crate::send::statement;
use crate::sides::{same_side, side_at};
use px_code::{Block, Blocks, Code, Exit, Side, Statement, Tree, Word};
use sqlite_items::Items;
use std::alloc::{AllocError, Global};
use std::mem;

fn is_return(word: &Word) -> bool
    ensures { result ≡ is_return_word word.now }
{
    matches!(word, Word::Return(_))
}

fn ends_in_return(statements: &[Statement]) -> bool
    ensures { result ≡ end_in_return statements.now }
{
    match statements.last() {
        Some(last) => is_return(&last.word),
        None => false,
    }
}

/// The number of the next block.
pub fn next_block(blocks: &Items<Block>) -> Result<u32, AllocError>
    ensures { IfOk result (λ n. n ≡ length blocks.now + 1) }
{
    let count = blocks.len();
    if count >= u32::MAX as usize {
        return Err(AllocError);
    }
    Ok(count as u32 + 1)
}

/// The statements of a block that may go on.
#[derive(Drop)]
pub struct Stretch {
    pub side: Side,
    pub statements: Items<Statement>,
}

// The block of a stretch.
fn close(blocks: &mut Items<Block>, method: u16, stretch: Stretch) -> Result<(), AllocError>
    ensures { OnOk result (blocks.new ≡ blocks.old ++ block_of (length blocks.old + 1) method stretch.side stretch.statements ∷ []) }
{
    let number = next_block(blocks)?;
    if number == u32::MAX {
        return Err(AllocError);
    }
    let Stretch { side, statements } = stretch;
    let exit = if ends_in_return(statements.as_slice()) {
        Exit::Return
    } else {
        Exit::Next(number + 1)
    };
    blocks.push(Block {
        method,
        side,
        statements,
        exit,
    })
}

// The next statement goes on at the side of those before it, or begins a stretch of its own.
fn add(
    alloc: Global,
    sides: &[Side],
    blocks: &mut Items<Block>,
    method: u16,
    stretch: &mut Stretch,
    next: Statement,
) -> Result<(), AllocError>
    ensures { OnOk result ((rest : List StatementData) → cut_after sides.now method blocks.new stretch.new rest ≡ cut_after sides.now method blocks.old stretch.old (next ∷ rest)) }
{
    let side = side_at(sides, next.node);
    if same_side(side, stretch.side) {
        return stretch.statements.push(next);
    }
    let mut statements = Items::new(alloc);
    statements.push(next)?;
    let before = mem::replace(stretch, Stretch { side, statements });
    close(blocks, method, before)
}

fn first_side(sides: &[Side], body: &[Tree]) -> Side
    ensures { result ≡ first_side_of sides.now body.now }
{
    match body {
        [Tree::Do { node, word: _ }, ..] => side_at(sides, *node),
        [] => Side::App,
    }
}

/// The blocks of a method, behind the others.
pub fn cut_body(
    alloc: Global,
    code: &Code,
    sides: &[Side],
    facts: &Facts,
    method: u16,
    body: &[Tree],
    blocks: &mut Items<Block>,
) -> Result<(), AllocError>
    ensures { OnOk result (blocks.new ≡ blocks.old ++ blocks_of_body code.now sides.now facts.now (length blocks.old + 1) method body.now) }
{
    let mut stretch = Stretch {
        side: first_side(sides, body),
        statements: Items::new(alloc),
    };
    for tree in body {
        let next = statement(alloc, code, sides, facts, method, tree)?;
        add(alloc, sides, blocks, method, &mut stretch, next)?;
    }
    if stretch.statements.is_empty() {
        return Ok(());
    }
    close(blocks, method, stretch)
}
