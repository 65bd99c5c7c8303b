//! Trees are laid into blocks, from the back.
ghost use Rattle.std.specs.Prelude.{◌≡◌, [], ◌∷◌, reverse, IfOk};
ghost use Rattle.px_blocks.specs.declared.block.Exit.TheVariants.{Branch};
ghost use Rattle.px_blocks.specs.declared.block.Deed.TheVariants.{Does};
ghost use Rattle.px_normal.specs.Words.{is_return};
ghost use Rattle.px_blocks.specs.Rules.{side_of, statement_of, first_in as first_of};
ghost use Rattle.px_blocks.specs.Cutter.{left_open, left_before, word_cut, kind_of, cut_of, cuts_of, back_all};
ghost use Rattle.px_blocks.specs.Seen.{seen, shapes_of, IsReady, IsTested, LiesBefore, loop_end, blocks_before};

use crate::block::{Block, Deed, Exit, Statement};
use crate::copying::{copy_operand, copy_word, send_at};
use crate::counting::{after, after_all};
use crate::pending::{Pending, before, closing, exit_to};
use crate::placed::Placed;
use crate::shape::{Shape, made_after, made_in, one_more, side_at};
use crate::side::Side;
use px_normal::{Operand, Tree, Word};
use sqlite_items::{Items, at};
use std::alloc::{AllocError, Global};

/// The first block of a method.
fn first_in(firsts: &[u32], method: u16) -> u32
    ensures { result ≡ first_of firsts.now method }
{
    if method == 0 {
        return 0;
    }
    match at(firsts, usize::from(method) - 1) {
        Some(first) => *first,
        None => 0,
    }
}

// A statement at the end of its block.
fn last(
    alloc: Global,
    method: u16,
    side: Side,
    statement: Statement,
    exit: Exit,
    shape: Shape,
    later: Items<Block>,
) -> Result<Pending, AllocError>
    ensures { IfOk result (λ l. seen l ≡ left_before method side statement shape (left_open [] exit (reverse later))) }
{
    let left = Pending {
        rest: Items::new(alloc),
        exit,
        to: 0,
        later,
    };
    before(alloc, method, side, statement, shape, left)
}

fn lay_word(
    alloc: Global,
    placed: &Placed,
    firsts: &[u32],
    method: u16,
    node: u32,
    word: &Word,
    shape: Shape,
    left: Pending,
) -> Result<Pending, AllocError>
    ensures { IfOk result (λ l. seen l ≡ (word_cut (side_of placed.now.sides node) (statement_of placed.now node (Does word.now)) (is_return word.now) (kind_of word.now)).back firsts.now method shape (seen left)) }
{
    let side = side_at(placed, node);
    let copy = copy_word(alloc, word)?;
    let statement = Statement {
        node,
        deed: Deed::Does(copy),
        send: send_at(alloc, placed, node)?,
    };
    match word {
        Word::Call {
            to: _,
            of: _,
            method: called,
            args: _,
        } => {
            let exit = Exit::Call {
                entry: first_in(firsts, *called),
                back: left.to,
            };
            last(alloc, method, side, statement, exit, shape, left.later)
        }
        Word::Query { .. } | Word::Update { .. } => {
            let exit = exit_to(left.to);
            last(alloc, method, side, statement, exit, shape, left.later)
        }
        _ => before(alloc, method, side, statement, shape, left),
    }
}

// A test at the end of its block.
fn lay_test(
    alloc: Global,
    placed: &Placed,
    method: u16,
    side: Side,
    node: u32,
    deed: Deed,
    shape: Shape,
    yes: u32,
    no: u32,
    later: Items<Block>,
) -> Result<Pending, AllocError>
    ensures { IfOk result (λ l. seen l ≡ left_before method side (statement_of placed.now node deed) shape (left_open [] (Branch yes no) (reverse later))) }
{
    let statement = Statement {
        node,
        deed,
        send: send_at(alloc, placed, node)?,
    };
    last(
        alloc,
        method,
        side,
        statement,
        Exit::Branch { yes, no },
        shape,
        later,
    )
}

/// What a loop is laid with: the blocks before it, before its body, and its first; the block behind it; what is open
/// before its test, and what is left behind its body.
#[derive(Drop)]
pub struct Ready {
    pub made: u32,
    pub made1: u32,
    pub start: u32,
    pub to: u32,
    pub at_test: Shape,
    pub at_end: Pending,
}

fn ready_loop(
    alloc: Global,
    placed: &Placed,
    node: u32,
    first: &[Tree],
    body: &[Tree],
    shape: Shape,
    left: Pending,
) -> Result<Ready, AllocError>
    ensures { IfOk result (λ r. IsReady placed.now node first.now body.now shape left r.made r.made1 r.start r.to r.at_test r.at_end) }
{
    let made = made_in(shape);
    let start = one_more(made)?;
    let at_test = after_all(placed, first, Shape::Closed { made })?;
    let made1 = made_after(side_at(placed, node), at_test)?;
    let behind = after_all(placed, body, Shape::Closed { made: made1 })?;
    let to = left.to;
    let at_end = closing(alloc, behind, start, left.later);
    Ok(Ready {
        made,
        made1,
        start,
        to,
        at_test,
        at_end,
    })
}

// The test of a loop, before its body.
fn lay_loop_test(
    alloc: Global,
    placed: &Placed,
    method: u16,
    node: u32,
    test: &Operand,
    at_test: Shape,
    to: u32,
    inner: Pending,
) -> Result<Pending, AllocError>
    ensures { IfOk result (λ l. IsTested placed.now method node test.now at_test to inner l) }
{
    let side = side_at(placed, node);
    let deed = Deed::Tests(copy_operand(alloc, test)?);
    let whole = lay_test(
        alloc,
        placed,
        method,
        side,
        node,
        deed,
        at_test,
        inner.to,
        to,
        inner.later,
    )?;
    Ok(whole)
}

// The shape before each tree.
fn shapes_before(
    alloc: Global,
    placed: &Placed,
    trees: &[Tree],
    shape: Shape,
) -> Result<Items<Shape>, AllocError>
    ensures { IfOk result (λ shapes. shapes ≡ shapes_of (cuts_of placed.now trees.now) shape) }
{
    let mut shapes = Items::new(alloc);
    let mut shape = shape;
    for tree in trees {
        shapes.push(shape)?;
        shape = after(placed, tree, shape)?;
    }
    Ok(shapes)
}

/// Before a tree.
#[cycle(lay)]
#[tactic(auto, using(crate::proofs::LayForms::lay_do))]
pub fn lay(
    alloc: Global,
    placed: &Placed,
    firsts: &[u32],
    method: u16,
    tree: &Tree,
    shape: Shape,
    left: Pending,
) -> Result<Pending, AllocError>
    ensures { IfOk result (λ l. seen l ≡ (cut_of placed.now tree.now).back firsts.now method shape (seen left)) }
{
    match tree {
        Tree::Do { node, word } => {
            lay_word(alloc, placed, firsts, method, *node, word, shape, left)
        }
        Tree::If {
            node,
            test,
            yes,
            no,
        } => {
            let yes = yes.as_slice();
            let no = no.as_slice();
            let side = side_at(placed, *node);
            let made = made_after(side, shape)?;
            let behind_yes = after_all(placed, yes, Shape::Closed { made })?;
            let made1 = made_in(behind_yes);
            let behind_no = after_all(placed, no, Shape::Closed { made: made1 })?;
            let to = left.to;
            let at_no = closing(alloc, behind_no, to, left.later);
            let other = lay_all(
                alloc,
                placed,
                firsts,
                method,
                no,
                Shape::Closed { made: made1 },
                at_no,
            )?;
            let no_to = other.to;
            let at_yes = closing(alloc, behind_yes, to, other.later);
            let branch = lay_all(
                alloc,
                placed,
                firsts,
                method,
                yes,
                Shape::Closed { made },
                at_yes,
            )?;
            let deed = Deed::Chooses(copy_operand(alloc, test)?);
            let whole = lay_test(
                alloc,
                placed,
                method,
                side,
                *node,
                deed,
                shape,
                branch.to,
                no_to,
                branch.later,
            )?;
            Ok(whole)
        }
        Tree::Loop {
            first,
            node,
            test,
            body,
        } => {
            let first = first.as_slice();
            let body = body.as_slice();
            let made = made_in(shape);
            let start = one_more(made)?;
            let tested = lay_loop_end(
                alloc, placed, firsts, method, *node, test, body, first, shape, left,
            )?;
            let whole = lay_all(
                alloc,
                placed,
                firsts,
                method,
                first,
                Shape::Closed { made },
                tested,
            )?;
            Ok(closing(alloc, shape, start, whole.later))
        }
    }
}

// Before the test of a loop.
#[cycle(lay)]
#[tactic(auto, using(crate::proofs::LayForms::loop_ended))]
fn lay_loop_end(
    alloc: Global,
    placed: &Placed,
    firsts: &[u32],
    method: u16,
    node: u32,
    test: &Operand,
    body: &[Tree],
    first: &[Tree],
    shape: Shape,
    left: Pending,
) -> Result<Pending, AllocError>
    ensures { IfOk result (λ l. seen l ≡ loop_end placed.now firsts.now method node test.now first.now body.now shape (seen left)) }
{
    let ready = ready_loop(alloc, placed, node, first, body, shape, left)?;
    let made1 = ready.made1;
    let at_test = ready.at_test;
    let to = ready.to;
    let inner = lay_all(
        alloc,
        placed,
        firsts,
        method,
        body,
        Shape::Closed { made: made1 },
        ready.at_end,
    )?;
    let whole = lay_loop_test(alloc, placed, method, node, test, at_test, to, inner)?;
    Ok(whole)
}

/// Before a list of trees.
#[cycle(lay)]
pub fn lay_all(
    alloc: Global,
    placed: &Placed,
    firsts: &[u32],
    method: u16,
    trees: &[Tree],
    shape: Shape,
    left: Pending,
) -> Result<Pending, AllocError>
    ensures { IfOk result (λ l. seen l ≡ back_all (cuts_of placed.now trees.now) firsts.now method shape (seen left)) }
{
    let mut shapes = shapes_before(alloc, placed, trees, shape)?;
    let mut left = left;
    while let Some(before_it) = shapes.pop() {
        let tree = &trees[shapes.len()];
        left = lay(alloc, placed, firsts, method, tree, before_it, left)?;
    }
    Ok(left)
}

/// The blocks of a method and of those after it, of which so many blocks were begun before; and the method's first block.
/// The blocks have the last first.
#[tactic(auto, using(crate::proofs::LaidBody::laid, crate::proofs::LaidBody::laid_exactly))]
pub fn lay_body(
    alloc: Global,
    placed: &Placed,
    firsts: &[u32],
    method: u16,
    made: u32,
    body: &[Tree],
    after_it: Items<Block>,
) -> Result<Pending, AllocError>
    ensures exact { IfOk result (λ l. reverse l.later ≡ blocks_before placed.now firsts.now method made body.now (reverse after_it)) }
    ensures lies { IfOk result (λ l. LiesBefore placed.now firsts.now method made body.now l.to (reverse l.later) (reverse after_it)) }
{
    let shape = after_all(placed, body, Shape::Closed { made })?;
    let end = closing(alloc, shape, 0, after_it);
    let whole = lay_all(
        alloc,
        placed,
        firsts,
        method,
        body,
        Shape::Closed { made },
        end,
    )?;
    Ok(whole)
}
