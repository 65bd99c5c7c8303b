//! Copies of operands and sends.
ghost use Rattle.std.specs.Prelude.{◌≡◌, IfOk};
ghost use Rattle.px_blocks.specs.Rules.{side_of, send_of};
ghost use Rattle.px_named.specs.Named as specs;

use px_blocks::{Placed, Send, Side};
use px_normal::Operand;
use px_pyxil::At;
use sqlite_items::Items;
use std::alloc::{AllocError, Global};

pub fn copy_operand(alloc: Global, operand: &Operand) -> Result<Operand, AllocError>
    ensures { IfOk result (λ copy. copy ≡ operand.now) }
{
    match operand {
        Operand::Slot(slot) => Ok(Operand::Slot(*slot)),
        Operand::Literal(value) => Ok(Operand::Literal(value.copy(alloc)?)),
    }
}

pub fn copy_if(alloc: Global, operand: &Option<Operand>) -> Result<Option<Operand>, AllocError>
    ensures { IfOk result (λ copy. copy ≡ operand.now) }
{
    match operand {
        Some(operand) => Ok(Some(copy_operand(alloc, operand)?)),
        None => Ok(None),
    }
}

pub fn copy_all(alloc: Global, operands: &Items<Operand>) -> Result<Items<Operand>, AllocError>
    ensures { IfOk result (λ copy. copy ≡ operands.now) }
{
    let mut copy = Items::new(alloc);
    for operand in operands.as_slice() {
        copy.push(copy_operand(alloc, operand)?)?;
    }
    Ok(copy)
}

/// The side of a node.
pub fn side_at(sides: &[Side], node: u32) -> Side
    ensures { result ≡ side_of sides.now node }
{
    if node == 0 {
        return Side::App;
    }
    match sides.get(node as usize - 1) {
        Some(side) => *side,
        None => Side::App,
    }
}

pub fn at_side(placed: &Placed, node: u32) -> At
    ensures { result ≡ specs.at_side placed.now node }
{
    At {
        node,
        side: side_at(placed.sides.as_slice(), node),
    }
}

/// The send that follows the statement of a node.
pub fn send_at(alloc: Global, placed: &Placed, node: u32) -> Result<Option<Send>, AllocError>
    ensures { IfOk result (λ send. send ≡ send_of placed.now.sends node) }
{
    if node == 0 {
        return Ok(None);
    }
    match placed.sends.as_slice().get(node as usize - 1) {
        Some(Some(send)) => Ok(Some(Send {
            kind: send.kind,
            object: copy_operand(alloc, &send.object)?,
        })),
        _ => Ok(None),
    }
}
