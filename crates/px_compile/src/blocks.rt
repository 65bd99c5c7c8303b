//! The blocks of all methods.
ghost use Rattle.std.specs.Prelude.{IfOk};
ghost use Rattle.px_code.specs.WellFormed.{IsWellFormed};
ghost use Rattle.px_code.specs.Cut.{AreBlocks};
ghost use Rattle.px_compile.specs.Facts.{AreFacts};

use crate::cut::{cut_body, next_block};
use crate::facts::Facts;
use px_code::{Blocks, Code, Side};
use sqlite_items::Items;
use std::alloc::{AllocError, Global};

/// Cuts code into blocks, with the sends that they need.
pub fn cut(alloc: Global, code: &Code, sides: &[Side], facts: &Facts) -> Result<Blocks, AllocError>
    requires formed { IsWellFormed code.now }
    requires facts { AreFacts code.now sides.now facts.now }
    ensures { IfOk result (λ blocks. AreBlocks code.now sides.now blocks) }
{
    let mut blocks = Items::new(alloc);
    let mut firsts = Items::new(alloc);
    let mut number: u16 = 1;
    for method in code.methods.as_slice() {
        if number == u16::MAX {
            return Err(AllocError);
        }
        firsts.push(next_block(&blocks)?)?;
        cut_body(
            alloc,
            code,
            sides,
            facts,
            number,
            method.body.as_slice(),
            &mut blocks,
        )?;
        number += 1;
    }
    Ok(Blocks { blocks, firsts })
}
