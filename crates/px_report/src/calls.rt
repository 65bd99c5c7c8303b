//! The lines of the calls.
ghost use Rattle.std.specs.Prelude.{◌≡◌, ◌++◌, OnOk};
ghost use Rattle.std.specs.List.{flat_map};
ghost use Rattle.px_report.specs.Lines.{call_line, call_text};

use crate::prints::push_prints;
use crate::words::{push_number, push_reply};
use px_code::Shown;
use std::alloc::AllocError;

/// A call that was made, and what its caller sees.
#[derive(Debug, Drop)]
pub struct ShownCall {
    /// Its session, from 1.
    pub session: u16,
    /// Its number among the calls of its session, from 1.
    pub number: u64,
    pub shown: Shown,
}

fn push_call(text: &mut Vec<u8>, call: &ShownCall) -> Result<(), AllocError>
    ensures { OnOk result (text.new.items ≡ text.old.items ++ call_line call.now) }
{
    text.extend_from_slice(b"call ")?;
    push_number(text, call.session)?;
    text.push(b' ')?;
    push_number(text, call.number)?;
    text.push(b' ')?;
    push_reply(text, &call.shown.reply)?;
    text.push(b'\n')?;
    Ok(())
}

fn push_shown(text: &mut Vec<u8>, call: &ShownCall) -> Result<(), AllocError>
    ensures { OnOk result (text.new.items ≡ text.old.items ++ call_text call.now) }
{
    push_call(text, call)?;
    push_prints(text, call.session, call.shown.prints.as_slice())
}

pub fn push_calls(text: &mut Vec<u8>, calls: &[ShownCall]) -> Result<(), AllocError>
    ensures { OnOk result (text.new.items ≡ text.old.items ++ flat_map call_text calls.now) }
{
    for call in calls {
        push_shown(text, call)?;
    }
    Ok(())
}
