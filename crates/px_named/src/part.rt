//! The texts of parts.
ghost use Rattle.std.specs.Prelude.{◌≡◌, ◌++◌, OnOk};
ghost use Rattle.px_named.specs.Parts.{part_text};

use px_pyxil::{Pyxil, print};
use std::alloc::{AllocError, Global};

/// The line of a part's name, and the lines of its code behind it.
pub fn push_part(
    alloc: Global,
    text: &mut Vec<u8>,
    name: &[u8],
    pyxil: &Pyxil,
) -> Result<(), AllocError>
    ensures { OnOk result (text.new.items ≡ text.old.items ++ part_text name.now pyxil.now) }
{
    let lines = print(alloc, pyxil)?;
    text.extend_from_slice(b"part ")?;
    text.extend_from_slice(name)?;
    text.extend_from_slice(b"\n")?;
    text.extend_from_slice(lines.as_slice())
}
