//! Sends by the nodes of the statements that they follow.
ghost use Rattle.std.specs.Prelude.{◌≡◌, None, length, replicate, IfOk};
ghost use Rattle.px_flow_points.specs.ByNode.{AreTouched};
ghost use Rattle.px_sync.specs.Sends.{HasSends};
ghost use Rattle.px_sync.specs.Found.{with_sent, with_all};

use crate::kept::Kept;
use crate::sent::{Sent, all_sent};
use px_blocks::{Placed, Send, Side};
use px_flow_points::Points;
use px_normal::{Code, Operand};
use sqlite_items::Items;
use std::alloc::{AllocError, Global};

fn no_sends(alloc: Global, count: usize) -> Result<Items<Option<Send>>, AllocError>
    ensures { IfOk result (λ sends. sends ≡ replicate count None) }
{
    let mut sends = Items::new(alloc);
    for _ in 0..count {
        sends.push(None)?;
    }
    Ok(sends)
}

fn put(sent: Sent, sends: &mut Items<Option<Send>>)
    ensures { sends.new ≡ with_sent sent sends.old }
{
    if sent.node == 0 {
        return;
    }
    let at = sent.node as usize - 1;
    if at < sends.len() {
        sends.set(
            at,
            Some(Send {
                kind: sent.kind,
                object: Operand::Slot(sent.slot),
            }),
        );
    }
}

fn put_all(list: &[Sent], sends: &mut Items<Option<Send>>)
    ensures { sends.new ≡ with_all list.now sends.old }
{
    for sent in list {
        put(*sent, sends);
    }
}

fn by_node(alloc: Global, list: &[Sent], count: usize) -> Result<Items<Option<Send>>, AllocError>
    ensures { IfOk result (λ sends. sends ≡ with_all list.now (replicate count None)) }
{
    let mut sends = no_sends(alloc, count)?;
    put_all(list, &mut sends);
    Ok(sends)
}

/// Code at a placement, the side of each node by its number from 1, with the sends that it needs.
pub fn place_sends(
    alloc: Global,
    code: &Code,
    points: &Points,
    sides: Items<Side>,
) -> Result<Placed, AllocError>
    requires { AreTouched code.now points.now }
    ensures { IfOk result (λ placed. HasSends code.now sides placed) }
{
    let kept = Kept::new(alloc, points, sides.as_slice())?;
    let list = all_sent(alloc, code, sides.as_slice(), &kept, points)?;
    let sends = by_node(alloc, list.as_slice(), code.nodes.len())?;
    Ok(Placed { sides, sends })
}
