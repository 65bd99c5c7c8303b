//! Where cells are at home.
ghost use Rattle.std.specs.Prelude.{◌≡◌, slice_get};
ghost use Rattle.std.specs.Option.{option_copied};
ghost use Rattle.px_code.specs.Places.{numbered as numbered_from_one, node_by, node_of_field, node_of_site, fields_in, home_by as side_by};
ghost use Rattle.px_half.specs.Messages.{home as side_of};

use crate::plans::numbered;
use px_code::{Class, Field, Plan, Side, Site};
use px_value::{Header, Kind};
use sqlite_items::at;

// The node that places a field of a class.
fn field_node(classes: &[Class], class: u16, index: u32) -> u32
    ensures { result ≡ node_of_field (slice_get (fields_in (slice_get classes.now class)) index) }
{
    match at(classes, usize::from(class)) {
        None => 0,
        Some(class) => match at(class.fields.as_slice(), index as usize) {
            None => 0,
            Some(field) => field.node,
        },
    }
}

// The node that places the elements of what a site made.
fn site_node(sites: &[Site], site: u16) -> u32
    ensures { result ≡ node_of_site (numbered_from_one sites.now site) }
{
    match numbered(sites, usize::from(site)) {
        None => 0,
        Some(site) => site.node.unwrap_or(0),
    }
}

// The node that places a cell, by the header of its object.
fn home_node(plan: &Plan, header: Header, index: u32) -> u32
    ensures { result ≡ node_by plan.now.code header.site header.kind index }
{
    match header.kind {
        Kind::Object(class) => field_node(plan.code.classes.as_slice(), class, index),
        _ => site_node(plan.code.sites.as_slice(), header.site),
    }
}

fn home_by(plan: &Plan, header: Header, index: u32) -> Side
    ensures { result ≡ side_by plan.now.code plan.now.placement.sides header index }
{
    match numbered(
        plan.placement.sides.as_slice(),
        home_node(plan, header, index) as usize,
    ) {
        Some(side) => *side,
        None => Side::App,
    }
}

/// Where a cell is at home, by the header of its object; what isn't there is at APP.
pub fn home(plan: Option<&Plan>, header: Option<Header>, index: u32) -> Side
    ensures { result ≡ side_of (option_copied plan.entry) header index }
{
    match (plan, header) {
        (Some(plan), Some(header)) => home_by(plan, header, index),
        _ => Side::App,
    }
}
