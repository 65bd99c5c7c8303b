//! Sides, and the sides of nodes.
ghost use Rattle.std.specs.Prelude.{◌≡◌};
ghost use Rattle.px_code.specs.Places.{other, side_of, same_side as are_same};
ghost use Rattle.px_graph.specs.Loads.{is_db as is_side_db};

use px_code::Side;

pub fn is_db(side: Side) -> bool
    ensures { result ≡ is_side_db side }
{
    match side {
        Side::App => false,
        Side::Db => true,
    }
}

pub fn other_side(side: Side) -> Side
    ensures { result ≡ other side }
{
    match side {
        Side::App => Side::Db,
        Side::Db => Side::App,
    }
}

pub fn same_side(left: Side, right: Side) -> bool
    ensures { result ≡ are_same left right }
{
    left == right
}

/// The side of a node, by its number from 1; what isn't there is at APP.
pub fn side_at(sides: &[Side], node: u32) -> Side
    ensures { result ≡ side_of sides.now node }
{
    if node == 0 {
        return Side::App;
    }
    match sides.get(node as usize - 1) {
        Some(side) => *side,
        None => Side::App,
    }
}
