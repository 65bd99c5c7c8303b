//! The bytes of values in messages, and where parts are at home.
ghost use Rattle.std.specs.Prelude.{◌≡◌, slice_get};
ghost use Rattle.px_normal.specs.First.{fields_of};
ghost use Rattle.px_normal.specs.Typed.{element_type};
ghost use Rattle.px_depend.specs.Sizes.{size_of, field_home, home_with, home_in, home_at, home_of};

use px_flow_points::Part;
use px_normal::{Code, Ty};
use px_value::Kind;

/// The node that places a part, and the bytes of a value in it.
#[derive(Clone, Copy, Debug, PartialEq, Eq)]
pub struct Home {
    pub node: u32,
    pub size: u32,
}

/// A text is taken to have twenty.
pub fn size_of(ty: Ty) -> u32
    ensures { result ≡ size_of ty }
{
    match ty {
        Ty::Int => 5,
        Ty::Long => 9,
        Ty::Bool => 2,
        Ty::Text => 20,
        _ => 5,
    }
}

// Of the elements of an array, by the number of their type.
fn element_size(element: u16) -> u32
    ensures { result ≡ size_of (element_type element) }
{
    match element {
        0 => 5,
        1 => 9,
        2 => 2,
        3 => 20,
        _ => 5,
    }
}

fn field_at(code: &Code, class: u16, place: u16) -> Option<Home>
    ensures { result ≡ field_home (slice_get (fields_of code.now class) place) }
{
    match sqlite_items::at(code.classes.as_slice(), usize::from(class)) {
        Some(class) => {
            match sqlite_items::at(class.fields.as_slice(), usize::from(place)) {
                Some(field) => Some(Home {
                    node: field.node,
                    size: size_of(field.ty),
                }),
                None => None,
            }
        }
        None => None,
    }
}

fn home_with(node: Option<u32>, size: u32) -> Option<Home>
    ensures { result ≡ home_with node size }
{
    match node {
        Some(node) => Some(Home { node, size }),
        None => None,
    }
}

fn home_in(code: &Code, kind: Kind, node: Option<u32>, part: Part) -> Option<Home>
    ensures { result ≡ home_in code.now kind node part }
{
    match (kind, part) {
        (Kind::Object(class), Part::Field(place)) => field_at(code, class, place),
        (Kind::Array(element), Part::Elements) => home_with(node, element_size(element)),
        (Kind::Rows(_), Part::Elements) => home_with(node, 9),
        _ => None,
    }
}

fn home_at(code: &Code, site: u16, part: Part) -> Option<Home>
    ensures { result ≡ home_at code.now (slice_get code.now.sites site) part }
{
    match sqlite_items::at(code.sites.as_slice(), usize::from(site)) {
        Some(site) => home_in(code, site.kind, site.node, part),
        None => None,
    }
}

/// Where a part of the objects of a site is at home.
pub fn home_of(code: &Code, site: u16, part: Part) -> Option<Home>
    ensures { result ≡ home_of code.now site part }
{
    if site == 0 {
        return home_in(code, Kind::Object(code.main), None, part);
    }
    home_at(code, site - 1, part)
}
