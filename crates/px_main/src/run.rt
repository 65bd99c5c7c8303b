//! The text of a serial run.
ghost use Rattle.std.specs.Prelude.{◌≡◌, ◌<◌, ◌+◌, ◌-◌, ◌^◌, IfOk};
ghost use Rattle.std.specs.Option.{option_copied};
ghost use Rattle.px_main.specs.Run.{session_in, count_of, counted, no_counts, shown_from, run_of, text_of};

use crate::serial::{class_names, run_serial};
use px_code::Shown;
use px_facts::Checked;
use px_job::Job;
use px_plain::Ran;
use px_report::{ShownCall, run_text};
use sqlite_items::at;
use std::alloc::{AllocError, Global};

// No session has made a call.
fn no_calls(alloc: Global, sessions: u16) -> Result<Vec<u64>, AllocError>
    ensures { IfOk result (λ counts. counts.items ≡ no_counts sessions) }
{
    let counts = vec![in alloc; 0; usize::from(sessions) + 1]?;
    Ok(counts)
}

// The session of a call, or 0 where there is none.
fn session_of(call: Option<&px_job::Call>) -> u16
    ensures { result ≡ session_in (option_copied call.entry) }
{
    match call {
        Some(call) => call.session,
        None => 0,
    }
}

// Counts a call of a session, and answers its number.
fn count(counts: &mut Vec<u64>, session: u16) -> u64
    requires { count_of counts.old.items session < 2 ^ 64 - 1 }
    ensures number { result ≡ count_of counts.old.items session + 1 }
    ensures counts { counts.new.items ≡ counted counts.old.items session }
{
    let at = usize::from(session);
    if at < counts.len() {
        counts[at] += 1;
        return counts[at];
    }
    1
}

// What the calls show, with their numbers among those of their sessions.
fn shown_calls(
    alloc: Global,
    sessions: u16,
    calls: &[px_job::Call],
    shown: Vec<Shown>,
) -> Result<Vec<ShownCall>, AllocError>
    ensures { IfOk result (λ all. all.items ≡ shown_from calls.now 0 (no_counts sessions) shown.items) }
{
    let mut counts = no_calls(alloc, sessions)?;
    let mut all = Vec::new(alloc);
    let mut place: usize = 0;
    for shown in shown {
        let session = session_of(at(calls, place));
        let number = count(&mut counts, session);
        all.push(ShownCall {
            session,
            number,
            shown,
        })?;
        place += 1;
    }
    Ok(all)
}

/// The text of the serial run of a job.
pub fn run(alloc: Global, checked: &Checked, job: &Job) -> Result<Vec<u8>, AllocError>
    ensures { IfOk result (λ text. text.items ≡ text_of checked.now job.now (run_of checked.now job.now)) }
{
    let ran = run_serial(alloc, checked, job)?;
    let Ran {
        shown,
        heaps,
        tables,
    } = ran;
    let calls = shown_calls(alloc, job.settings.sessions, job.calls.as_slice(), shown)?;
    let names = class_names(alloc, checked.program.classes.as_slice())?;
    run_text(
        alloc,
        names.as_slice(),
        &checked.schema,
        calls.as_slice(),
        &tables,
        heaps.as_slice(),
    )
}
