//! From code and a placement to blocks with their sends.
ghost use Rattle.std.specs.Prelude.{◌≡◌, ℕ, Some, Err, IfOk};
ghost use Rattle.px_flow_points.specs.ByNode.{AreTouched};
ghost use Rattle.px_plan.specs.Prints.{unpinned};
ghost use Rattle.px_plan.specs.Compiled.{IsCompiled};
ghost use Rattle.px_plan.specs.declared.plan.CompileError.TheVariants.{NoMemory, Unpinned};

use crate::prints::unpinned;
use px_blocks::{Blocks, Placed, Side, cut};
use px_flow_points::Points;
use px_normal::Code;
use px_sync::place_sends;
use sqlite_items::Items;
use std::alloc::{AllocError, Global};

/// The sides and sends of nodes, and the blocks.
#[derive(Drop)]
pub struct Compiled {
    pub placed: Placed,
    pub blocks: Blocks,
}

/// Why code at a placement isn't compiled.
#[derive(Clone, Copy, Debug, PartialEq, Eq)]
pub enum CompileError {
    /// A statement prints at DB; the first, by its node.
    Unpinned { node: u32 },
    NoMemory,
}

impl From<AllocError> for CompileError {
    ghost from_gives = { λ _ e. e ≡ NoMemory };

    fn from(_: AllocError) -> Self {
        CompileError::NoMemory
    }
}

/// By the side of each node, numbered from 1.
pub fn compile(
    alloc: Global,
    code: &Code,
    points: &Points,
    sides: Items<Side>,
) -> Result<Compiled, CompileError>
    requires { AreTouched code.now points.now }
    ensures unpinned { (node : ℕ) → result ≡ Err (Unpinned node) → unpinned code.now sides ≡ Some node }
    ensures compiled { IfOk result (λ compiled. IsCompiled code.now sides compiled) }
{
    if let Some(node) = unpinned(code, sides.as_slice()) {
        return Err(CompileError::Unpinned { node });
    }
    let placed = place_sends(alloc, code, points, sides)?;
    let blocks = cut(alloc, code, &placed)?;
    Ok(Compiled { placed, blocks })
}
