//! The text of a history.
ghost use Rattle.std.specs.Prelude.{◌≡◌, IfOk};
ghost use Rattle.px_report.specs.History.{report_text};

use crate::events::push_events;
use crate::state::push_heaps_to_end;
use crate::tables::push_tables;
use px_code::Event;
use px_rows::Tables;
use px_value::{Heap, Schema, Text};
use std::alloc::{AllocError, Global};

/// The events, and what they leave in the tables and in each session's heap. A class and a part have the names that stand at their numbers.
#[tactic(auto, unfolding(crate::specs::History::report_text))]
pub fn report_text(
    alloc: Global,
    classes: &[Text],
    schema: &Schema,
    parts: &[Text],
    events: &[Event],
    tables: &Tables,
    heaps: &[Heap],
) -> Result<Vec<u8>, AllocError>
    ensures { IfOk result (λ text. text.items ≡ report_text classes.now schema.now parts.now events.now tables.now heaps.now) }
{
    let mut text = Vec::from_slice(alloc, b"history\n")?;
    push_events(&mut text, parts, events)?;
    text.extend_from_slice(b"tables\n")?;
    push_tables(alloc, &mut text, schema.tables.as_slice(), tables)?;
    push_heaps_to_end(&mut text, classes, heaps)?;
    Ok(text)
}
