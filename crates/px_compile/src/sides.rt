//! Where nodes and fields are placed.
ghost use Rattle.std.specs.Prelude.{◌≡◌, slice_get};
ghost use Rattle.px_code.specs.Places.{fields_in, side_of, field_node as node_of_field_in, same_side as are_same};

use px_code::{Code, Field, Side};
use sqlite_items::at;

pub fn same_side(left: Side, right: Side) -> bool
    ensures { result ≡ are_same left right }
{
    left == right
}

/// The side of a node, by its number from 1; what isn't there is at APP.
pub fn side_at(sides: &[Side], node: u32) -> Side
    ensures { result ≡ side_of sides.now node }
{
    if node == 0 {
        return Side::App;
    }
    match at(sides, node as usize - 1) {
        Some(side) => *side,
        None => Side::App,
    }
}

pub fn fields_of(code: &Code, class: u16) -> &[Field]
    ensures { result.now ≡ fields_in (slice_get code.now.classes class) }
{
    match at(code.classes.as_slice(), usize::from(class)) {
        Some(class) => class.fields.as_slice(),
        None => &[],
    }
}

/// The node that places a field; 0 where it isn't there.
pub fn field_node(code: &Code, class: u16, field: u16) -> u32
    ensures { result ≡ node_of_field_in code.now class field }
{
    match at(fields_of(code, class), usize::from(field)) {
        Some(field) => field.node,
        None => 0,
    }
}
