//! The placement that a part makes.

ghost use Rattle.std.specs.Prelude.{◌≡◌, IfOk, map, Some};
ghost use Rattle.std.specs.List.{AllByRecursion};
ghost use Rattle.px_job.specs.Fitting.{IsSet};
ghost use Rattle.px_job.specs.Placing.{sides_or_app, sides_of};

use crate::job::Part;
use px_code::{Placement, Side};
use sqlite_items::Items;
use std::alloc::{AllocError, Global};

/// The placement of each node at its side of a part, and at APP where the part sets none. Of a part
/// without a budget it is the part's.
pub fn sides_of(alloc: Global, part: &Part) -> Result<Placement, AllocError>
    ensures placed { IfOk result (λ placement. placement ≡ sides_of part.now) }
    ensures total { AllByRecursion IsSet part.now.sides.sides → IfOk result (λ placement. map Some placement.sides ≡ part.now.sides.sides) }
{
    let sides = sides_or_app(alloc, part.sides.sides.as_slice())?;
    Ok(Placement { sides })
}

fn sides_or_app(alloc: Global, sides: &[Option<Side>]) -> Result<Items<Side>, AllocError>
    ensures { IfOk result (λ all. all ≡ sides_or_app sides.now) }
{
    let mut all = Items::new(alloc);
    for side in sides {
        all.push(side.unwrap_or(Side::App))?;
    }
    Ok(all)
}
