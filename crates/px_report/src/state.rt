//! What the calls leave.
ghost use Rattle.std.specs.Prelude.{◌≡◌, ◌++◌, ◌∷◌, [], codes, OnOk};
ghost use Rattle.px_report.specs.Lines.{line, numbered, heap_text};

use crate::heaps::push_heaps;
use px_value::{Heap, Text};
use std::alloc::AllocError;

/// The heaps, behind the tables, and the last line.
pub fn push_heaps_to_end(
    text: &mut Vec<u8>,
    classes: &[Text],
    heaps: &[Heap],
) -> Result<(), AllocError>
    ensures { OnOk result (text.new.items ≡ text.old.items ++ (line (codes "heaps" ∷ []) ++ numbered (heap_text classes.now) 1 heaps.now ++ line (codes "done" ∷ []))) }
{
    text.extend_from_slice(b"heaps\n")?;
    push_heaps(text, classes, heaps)?;
    text.extend_from_slice(b"done\n")?;
    Ok(())
}
