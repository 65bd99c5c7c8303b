//! A whole program's code.
ghost use Rattle.std.specs.Prelude.{◌≡◌, IfOk};
ghost use Rattle.px_straight.specs.Simple as specs;
ghost use Rattle.px_straight.specs.Straight.{straight};

use crate::later::later;
use crate::methods::{simple_classes, simple_methods};
use crate::types::simple_nodes;
use px_code::Code as SimpleCode;
use px_normal::Code;
use sqlite_items::Items;
use std::alloc::{AllocError, Global};

fn simple_code(alloc: Global, code: &Code) -> Result<SimpleCode, AllocError>
    ensures { IfOk result (λ c. c ≡ specs.simple_code code.now) }
{
    let classes = simple_classes(alloc, code.classes.as_slice())?;
    let methods = simple_methods(alloc, code.methods.as_slice())?;
    let nodes = simple_nodes(alloc, code.nodes.as_slice())?;
    Ok(SimpleCode {
        main: code.main,
        classes,
        methods,
        sites: Items::new(alloc),
        nodes,
    })
}

/// The code as two ends take it, or the line of the first statement, by the number of its node, that they don't take yet.
#[tactic(auto, unfolding(crate::specs::Straight::straight))]
pub fn straighten(alloc: Global, code: &Code) -> Result<Result<SimpleCode, u32>, AllocError>
    ensures { IfOk result (λ made. made ≡ straight code.now) }
{
    match later(code) {
        None => Ok(Ok(simple_code(alloc, code)?)),
        Some(line) => Ok(Err(line)),
    }
}
