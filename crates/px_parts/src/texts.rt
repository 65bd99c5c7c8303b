//! The texts of parts.
ghost use Rattle.std.specs.Prelude.{◌≡◌, ◌++◌, List, ℕ, IfOk, OnOk};
ghost use Rattle.px_flow_points.specs.There.{NumbersExist};
ghost use Rattle.px_flow_points.specs.ByNode.{AreTouched};
ghost use Rattle.px_parts.specs.Texts.{IsPartText, AreOwn, IsSplitText};

use crate::sides::placement_of;
use px_flow_points::{Points, points_to};
use px_job::Part;
use px_named::{push_part, pyxil_of};
use px_normal::Code;
use px_sync::place_sends;
use std::alloc::{AllocError, Global};

// A part's name, and its code with the sends that it needs.
fn push_placed(
    alloc: Global,
    text: &mut Vec<u8>,
    code: &Code,
    points: &Points,
    part: &Part,
) -> Result<(), AllocError>
    requires { AreTouched code.now points.now }
    ensures { OnOk result ((more : List ℕ) × IsPartText code.now part.now more × (text.new.items ≡ text.old.items ++ more)) }
{
    let sides = placement_of(alloc, part)?;
    let placed = place_sends(alloc, code, points, sides)?;
    let pyxil = pyxil_of(alloc, code, &placed)?;
    push_part(alloc, text, part.name.as_slice(), &pyxil)
}

/// The code at the placement of each part, with the sends that it needs there.
pub fn split_text(alloc: Global, code: &Code, parts: &[Part]) -> Result<Vec<u8>, AllocError>
    requires numbers { NumbersExist code.now }
    requires own { AreOwn code.now }
    ensures { IfOk result (λ text. IsSplitText code.now parts.now text.items) }
{
    let points = points_to(alloc, code)?;
    let mut text = Vec::new(alloc);
    for part in parts {
        push_placed(alloc, &mut text, code, &points, part)?;
    }
    Ok(text)
}
