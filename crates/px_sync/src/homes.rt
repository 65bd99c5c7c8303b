//! Where the cells of objects are at home.
ghost use Rattle.std.specs.Prelude.{◌≡◌, slice_get};
ghost use Rattle.px_sync.specs.Homes.{field_node, part_node, site_node, home_node, home, field_home};

use crate::side::side_at;
use px_blocks::Side;
use px_flow_points::{Pair, Part};
use px_normal::Code;
use px_value::Kind;

fn field_node(code: &Code, class: u16, place: u16) -> u32
    ensures { result ≡ field_node code.now class place }
{
    match sqlite_items::at(code.classes.as_slice(), usize::from(class)) {
        Some(class) => match sqlite_items::at(class.fields.as_slice(), usize::from(place)) {
            Some(field) => field.node,
            None => 0,
        },
        None => 0,
    }
}

fn part_node(code: &Code, kind: Kind, node: Option<u32>, part: Part) -> u32
    ensures { result ≡ part_node code.now kind node part }
{
    match (kind, part) {
        (Kind::Object(class), Part::Field(place)) => field_node(code, class, place),
        (Kind::Object(_), Part::Elements) => 0,
        _ => node.unwrap_or(0),
    }
}

fn site_node(code: &Code, site: u16, part: Part) -> u32
    ensures { result ≡ site_node code.now (slice_get code.now.sites site) part }
{
    match sqlite_items::at(code.sites.as_slice(), usize::from(site)) {
        Some(site) => part_node(code, site.kind, site.node, part),
        None => 0,
    }
}

// The node that places a part; 0 where there is none.
fn home_node(code: &Code, pair: Pair) -> u32
    ensures { result ≡ home_node code.now pair.site pair.part }
{
    if pair.site == 0 {
        return part_node(code, Kind::Object(code.main), None, pair.part);
    }
    site_node(code, pair.site - 1, pair.part)
}

/// Where a part of the objects of a site is at home, by the sides of nodes.
pub fn home(code: &Code, sides: &[Side], pair: Pair) -> Side
    ensures { result ≡ home code.now sides.now pair.site pair.part }
{
    side_at(sides, home_node(code, pair))
}

pub fn field_home(code: &Code, sides: &[Side], class: u16, place: u16) -> Side
    ensures { result ≡ field_home code.now sides.now class place }
{
    side_at(sides, field_node(code, class, place))
}
