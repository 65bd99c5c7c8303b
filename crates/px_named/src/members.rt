//! Fields and sites at their sides.
ghost use Rattle.std.specs.Prelude.{◌≡◌, suc, ◌++◌, OnOk, IfOk};
ghost use Rattle.std.specs.List.{flat_map};
ghost use Rattle.px_named.specs.Named as specs;

use crate::copies::side_at;
use px_blocks::Side;
use px_normal::{Class, Field, Site};
use px_pyxil::{Field as PlacedField, Member, Site as PlacedSite};
use px_value::Text;
use sqlite_items::Items;
use std::alloc::{AllocError, Global};

fn placed_field(
    alloc: Global,
    sides: &[Side],
    class: &Text,
    field: &Field,
) -> Result<PlacedField, AllocError>
    ensures { IfOk result (λ placed. placed ≡ specs.placed_field sides.now class.now field.now) }
{
    let name = field.name.copy(alloc)?;
    Ok(PlacedField {
        field: Member {
            class: class.copy(alloc)?,
            name,
        },
        side: side_at(sides, field.node),
    })
}

fn push_fields(
    alloc: Global,
    sides: &[Side],
    class: &Class,
    placed: &mut Items<PlacedField>,
) -> Result<(), AllocError>
    ensures { OnOk result (placed.new ≡ placed.old ++ specs.placed_fields sides.now class.now) }
{
    for field in class.fields.as_slice() {
        placed.push(placed_field(alloc, sides, &class.name, field)?)?;
    }
    Ok(())
}

pub fn placed_fields(
    alloc: Global,
    sides: &[Side],
    classes: &[Class],
) -> Result<Items<PlacedField>, AllocError>
    ensures { IfOk result (λ placed. placed ≡ flat_map (specs.placed_fields sides.now) classes.now) }
{
    let mut placed = Items::new(alloc);
    for class in classes {
        push_fields(alloc, sides, class, &mut placed)?;
    }
    Ok(placed)
}

fn push_site(
    sides: &[Side],
    number: u16,
    site: &Site,
    placed: &mut Items<PlacedSite>,
) -> Result<(), AllocError>
    ensures { OnOk result (placed.new ≡ placed.old ++ specs.placed_site sides.now number site.now.node) }
{
    match site.node {
        Some(node) => placed.push(PlacedSite {
            number,
            side: side_at(sides, node),
        }),
        None => Ok(()),
    }
}

// There are no more sites than can be numbered.
fn next_site(number: u16) -> Result<u16, AllocError>
    ensures { IfOk result (λ next. next ≡ suc number) }
{
    match number.checked_add(1) {
        Some(next) => Ok(next),
        None => Err(AllocError),
    }
}

/// The sites of arrays and rows.
pub fn placed_sites(
    alloc: Global,
    sides: &[Side],
    sites: &[Site],
) -> Result<Items<PlacedSite>, AllocError>
    ensures { IfOk result (λ placed. placed ≡ specs.sites_from sides.now 1 sites.now) }
{
    let mut placed = Items::new(alloc);
    let mut number: u16 = 1;
    for site in sites {
        push_site(sides, number, site, &mut placed)?;
        number = next_site(number)?;
    }
    Ok(placed)
}
