//! The sides of nodes.
ghost use Rattle.std.specs.Prelude.{◌≡◌};
ghost use Rattle.px_blocks.specs.Sides.{other as other_side, same_side as is_same_side};
ghost use Rattle.px_blocks.specs.Rules.{side_of};

use px_blocks::Side;

pub fn other(side: Side) -> Side
    ensures { result ≡ other_side side }
{
    match side {
        Side::App => Side::Db,
        Side::Db => Side::App,
    }
}

pub fn same_side(a: Side, b: Side) -> bool
    ensures { result ≡ is_same_side a b }
{
    match (a, b) {
        (Side::App, Side::App) => true,
        (Side::Db, Side::Db) => true,
        _ => false,
    }
}

/// The side of a node, by its number from 1.
pub fn side_at(sides: &[Side], node: u32) -> Side
    ensures { result ≡ side_of sides.now node }
{
    if node == 0 {
        return Side::App;
    }
    match sides.get(node as usize - 1) {
        Some(side) => *side,
        None => Side::App,
    }
}
