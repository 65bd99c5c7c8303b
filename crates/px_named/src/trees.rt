//! Methods with names.
ghost use Rattle.std.specs.Prelude.{◌≡◌, map, IfOk};
ghost use Rattle.px_named.specs.Named as specs;

use crate::copies::{at_side, copy_operand, send_at};
use crate::names::member_of;
use crate::words::named_word;
use px_blocks::Placed;
use px_normal::{Code, Method, Tree};
use px_pyxil::{Head, Method as NamedMethod, Tree as NamedTree};
use sqlite_items::Items;
use std::alloc::{AllocError, Global};

#[cycle(tree)]
#[tactic(auto, using(crate::proofs::Forms::named_do, crate::proofs::Forms::named_if, crate::proofs::Forms::named_loop))]
fn named_tree(
    alloc: Global,
    code: &Code,
    placed: &Placed,
    tree: &Tree,
) -> Result<NamedTree, AllocError>
    ensures { IfOk result (λ named. named ≡ specs.named_tree code.now placed.now tree.now) }
{
    match tree {
        Tree::Do { node, word } => Ok(NamedTree::Do {
            at: at_side(placed, *node),
            word: named_word(alloc, code, word)?,
            send: send_at(alloc, placed, *node)?,
        }),
        Tree::If {
            node,
            test,
            yes,
            no,
        } => Ok(NamedTree::If {
            at: at_side(placed, *node),
            test: copy_operand(alloc, test)?,
            yes: named_trees(alloc, code, placed, yes.as_slice())?,
            no: named_trees(alloc, code, placed, no.as_slice())?,
        }),
        Tree::Loop {
            first,
            node,
            test,
            body,
        } => Ok(NamedTree::Loop {
            first: named_trees(alloc, code, placed, first.as_slice())?,
            at: at_side(placed, *node),
            test: copy_operand(alloc, test)?,
            body: named_trees(alloc, code, placed, body.as_slice())?,
        }),
    }
}

#[cycle(tree)]
fn named_trees(
    alloc: Global,
    code: &Code,
    placed: &Placed,
    trees: &[Tree],
) -> Result<Items<NamedTree>, AllocError>
    ensures { IfOk result (λ named. named ≡ specs.named_trees code.now placed.now trees.now) }
{
    let mut named = Items::new(alloc);
    for tree in trees {
        named.push(named_tree(alloc, code, placed, tree)?)?;
    }
    Ok(named)
}

// More than 2^32 slots have no room.
fn head_of(alloc: Global, code: &Code, placed: &Placed, method: &Method) -> Result<Head, AllocError>
    ensures { IfOk result (λ head. head ≡ specs.head_of code.now placed.now method.now) }
{
    let Ok(slots) = u32::try_from(method.slots.len()) else {
        return Err(AllocError);
    };
    Ok(Head {
        at: at_side(placed, method.node),
        method: member_of(alloc, code, method)?,
        slots,
    })
}

fn named_method(
    alloc: Global,
    code: &Code,
    placed: &Placed,
    method: &Method,
) -> Result<NamedMethod, AllocError>
    ensures { IfOk result (λ named. named ≡ specs.named_method code.now placed.now method.now) }
{
    let head = head_of(alloc, code, placed, method)?;
    Ok(NamedMethod {
        head,
        body: named_trees(alloc, code, placed, method.body.as_slice())?,
    })
}

pub fn named_methods(
    alloc: Global,
    code: &Code,
    placed: &Placed,
    methods: &[Method],
) -> Result<Items<NamedMethod>, AllocError>
    ensures { IfOk result (λ named. named ≡ map (specs.named_method code.now placed.now) methods.now) }
{
    let mut named = Items::new(alloc);
    for method in methods {
        named.push(named_method(alloc, code, placed, method)?)?;
    }
    Ok(named)
}
