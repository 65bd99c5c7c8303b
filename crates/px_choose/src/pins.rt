//! Pins, and the nodes that they leave free.
ghost use Rattle.std.specs.Prelude.{◌≡◌, IfOk};
ghost use Rattle.px_choose.specs.Placements.{is_free as is_node_free, all_at};

use px_code::Side;
use std::alloc::{AllocError, Global};

/// Whether a node, by its number from 1, is there and has no pin.
pub fn is_free(pins: &[Option<Side>], node: u32) -> bool
    ensures { result ≡ is_node_free pins.now node }
{
    if node == 0 {
        return false;
    }
    match pins.get(node as usize - 1) {
        Some(pin) => pin.is_none(),
        None => false,
    }
}

/// The pins, and the side for every other node.
pub fn all(alloc: Global, pins: &[Option<Side>], side: Side) -> Result<Vec<Side>, AllocError>
    ensures { IfOk result (λ sides. sides.items ≡ all_at side pins.now) }
{
    let mut sides = Vec::new(alloc);
    for pin in pins {
        match pin {
            Some(at) => sides.push(*at)?,
            None => sides.push(side)?,
        }
    }
    Ok(sides)
}
