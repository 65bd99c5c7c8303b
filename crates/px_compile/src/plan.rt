//! The plan of a placement.
ghost use Rattle.std.specs.Prelude.{◌≡◌, IfOk};
ghost use Rattle.px_code.specs.WellFormed.{IsWellFormed};
ghost use Rattle.px_code.specs.Cut.{AreBlocks};
ghost use Rattle.px_code.specs.Sound.{IsKeep};

use crate::blocks::cut;
use crate::facts::Facts;
use crate::keep::keep;
use px_code::{Code, Placement, Plan};
use std::alloc::{AllocError, Global};

/// The plan of code that is placed so. It takes the code and the placement, which stand in the plan.
pub fn compile(alloc: Global, code: Code, placement: Placement) -> Result<Plan, AllocError>
    requires formed { IsWellFormed code }
    ensures code { IfOk result (λ p. p.code ≡ code) }
    ensures placement { IfOk result (λ p. p.placement ≡ placement) }
    ensures blocks { IfOk result (λ p. AreBlocks code placement.sides p.blocks) }
    ensures keep { IfOk result (λ p. IsKeep code placement.sides p.keep) }
{
    let sides = placement.sides.as_slice();
    let facts = Facts::new(alloc, &code, sides)?;
    let blocks = cut(alloc, &code, sides, &facts)?;
    let keep = keep(alloc, &facts.kept)?;
    Ok(Plan {
        code,
        placement,
        blocks,
        keep,
    })
}
