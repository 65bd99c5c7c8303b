//! The sides of a part's nodes.
ghost use Rattle.std.specs.Prelude.{◌≡◌, map, IfOk};
ghost use Rattle.px_parts.specs.Sides.{side_of, placement_of};

use px_blocks::Side;
use px_job::{Part, sides_of};
use sqlite_items::Items;
use std::alloc::{AllocError, Global};

fn side_of(side: px_code::Side) -> Side
    ensures { result ≡ side_of side }
{
    match side {
        px_code::Side::App => Side::App,
        px_code::Side::Db => Side::Db,
    }
}

/// The side of each node, by its number from 1.
pub fn placement_of(alloc: Global, part: &Part) -> Result<Items<Side>, AllocError>
    ensures { IfOk result (λ sides. sides ≡ placement_of part.now) }
{
    let placement = sides_of(alloc, part)?;
    let mut sides = Items::new(alloc);
    for side in placement.sides.as_slice() {
        sides.push(side_of(*side))?;
    }
    Ok(sides)
}
