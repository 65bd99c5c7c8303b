//! The lines of the events.
ghost use Rattle.std.specs.Prelude.{◌≡◌, ◌++◌, OnOk};
ghost use Rattle.std.specs.List.{flat_map};
ghost use Rattle.px_report.specs.History.{begin_line, end_line, event_text};

use crate::names::part_name;
use crate::prints::push_prints;
use crate::words::{push_labelled, push_reply};
use px_code::{Done, Event};
use px_value::Text;
use std::alloc::AllocError;

fn push_begin(text: &mut Vec<u8>, session: u16, call: u64, attempt: u8) -> Result<(), AllocError>
    ensures { OnOk result (text.new.items ≡ text.old.items ++ begin_line session call attempt) }
{
    push_labelled(text, b"begin ", session)?;
    push_labelled(text, b" ", call)?;
    push_labelled(text, b" ", attempt)?;
    text.push(b'\n')?;
    Ok(())
}

fn push_end(text: &mut Vec<u8>, parts: &[Text], session: u16, done: &Done) -> Result<(), AllocError>
    ensures { OnOk result (text.new.items ≡ text.old.items ++ end_line parts.now session done.now) }
{
    push_labelled(text, b"end ", session)?;
    text.push(b' ')?;
    push_reply(text, &done.reply)?;
    text.extend_from_slice(b" part ")?;
    text.extend_from_slice(part_name(parts, done.part))?;
    push_labelled(text, b" avg ", done.avg)?;
    push_labelled(text, b" moves ", done.moves)?;
    push_labelled(text, b" bytes ", done.bytes)?;
    push_labelled(text, b" rehome ", done.rehome)?;
    text.push(b'\n')?;
    Ok(())
}

fn push_event(text: &mut Vec<u8>, parts: &[Text], event: &Event) -> Result<(), AllocError>
    ensures { OnOk result (text.new.items ≡ text.old.items ++ event_text parts.now event.now) }
{
    match event {
        Event::Begin {
            session,
            call,
            attempt,
        } => push_begin(text, *session, *call, *attempt),
        Event::End { session, done } => {
            push_end(text, parts, *session, done)?;
            push_prints(text, *session, done.prints.as_slice())
        }
    }
}

pub fn push_events(text: &mut Vec<u8>, parts: &[Text], events: &[Event]) -> Result<(), AllocError>
    ensures { OnOk result (text.new.items ≡ text.old.items ++ flat_map (event_text parts.now) events.now) }
{
    for event in events {
        push_event(text, parts, event)?;
    }
    Ok(())
}
