//! The PyxIL of placed code.
ghost use Rattle.std.specs.Prelude.{◌≡◌, IfOk};
ghost use Rattle.px_named.specs.Named.{named};

use crate::members::{placed_fields, placed_sites};
use crate::trees::named_methods;
use px_blocks::Placed;
use px_normal::Code;
use px_pyxil::Pyxil;
use std::alloc::{AllocError, Global};

/// The PyxIL of placed code: its fields and sites at their sides, and its methods with their sends, all by name.
#[tactic(auto, unfolding(crate::specs::Named::named))]
pub fn pyxil_of(alloc: Global, code: &Code, placed: &Placed) -> Result<Pyxil, AllocError>
    ensures { IfOk result (λ pyxil. pyxil ≡ named code.now placed.now) }
{
    let sides = placed.sides.as_slice();
    let fields = placed_fields(alloc, sides, code.classes.as_slice())?;
    let sites = placed_sites(alloc, sides, code.sites.as_slice())?;
    let methods = named_methods(alloc, code, placed, code.methods.as_slice())?;
    Ok(Pyxil {
        fields,
        sites,
        methods,
    })
}
