//! The text of a run.
ghost use Rattle.std.specs.Prelude.{◌≡◌, IfOk};
ghost use Rattle.px_report.specs.Runs.{run_text};

use crate::calls::{ShownCall, push_calls};
use crate::state::push_heaps_to_end;
use crate::tables::push_tables;
use px_rows::Tables;
use px_value::{Heap, Schema, Text};
use std::alloc::{AllocError, Global};

/// The replies and prints of the calls, and what they leave in the tables and in each session's heap. A class has the name that stands at its number.
#[tactic(auto, unfolding(crate::specs::Runs::run_text))]
pub fn run_text(
    alloc: Global,
    classes: &[Text],
    schema: &Schema,
    calls: &[ShownCall],
    tables: &Tables,
    heaps: &[Heap],
) -> Result<Vec<u8>, AllocError>
    ensures { IfOk result (λ text. text.items ≡ run_text classes.now schema.now calls.now tables.now heaps.now) }
{
    let mut text = Vec::from_slice(alloc, b"calls\n")?;
    push_calls(&mut text, calls)?;
    text.extend_from_slice(b"tables\n")?;
    push_tables(alloc, &mut text, schema.tables.as_slice(), tables)?;
    push_heaps_to_end(&mut text, classes, heaps)?;
    Ok(text)
}
