//! Lines that begin with `call`.

ghost use Rattle.std.specs.Prelude.{◌≡◌, ◌≤◌, ◌<◌, ◌==◌, length, slice_get, Some};
ghost use Rattle.px_job.specs.Words.{words_of};
ghost use Rattle.px_job.specs.Places.{place_of};
ghost use Rattle.px_job.specs.Calls.{call_to, call_at, judged_call};
ghost use Rattle.px_job.specs.Judging.{Judges};

use crate::arguments::{count_values, is_digits, read_arguments};
use crate::entries::Entries;
use crate::job::{Call, JobCode};
use crate::judge::Refusal;
use crate::numbers::read_within;
use crate::words::split_word;
use px_lex::is_identifier;
use sqlite_items::at;
use std::alloc::Global;

/// The most calls of a job.
const MAX_CALLS: usize = 2000;

/// The call of what stands behind `call`, behind so many calls.
pub(crate) fn judge_call(
    alloc: Global,
    entries: &Entries<'_>,
    sessions: u16,
    calls: usize,
    line: &[u8],
) -> Result<Call, Refusal>
    ensures { Judges result (judged_call entries.now.list.now sessions calls (words_of line.now)) }
{
    let Some((session, rest)) = split_word(line) else {
        return Err(Refusal::Breaks(JobCode::J1));
    };
    let Some((name, rest)) = split_word(rest) else {
        return Err(Refusal::Breaks(JobCode::J1));
    };
    if !is_digits(session) || !is_identifier(name) {
        return Err(Refusal::Breaks(JobCode::J1));
    }
    let Some(count) = count_values(rest) else {
        return Err(Refusal::Breaks(JobCode::J1));
    };
    let Some(session) = read_within(1, sessions, session) else {
        return Err(Refusal::Breaks(JobCode::J5));
    };
    let Some(place) = entries.find(name) else {
        return Err(Refusal::Breaks(JobCode::J10));
    };
    make_call(alloc, entries, session, calls, place, count, rest)
}

// The session's call of the entry at a place, with so many arguments.
fn make_call(
    alloc: Global,
    entries: &Entries<'_>,
    session: u16,
    calls: usize,
    place: usize,
    count: usize,
    line: &[u8],
) -> Result<Call, Refusal>
    requires { count ≡ length (words_of line.now) }
    ensures { Judges result (call_at calls (words_of line.now) (Some session) (Some place) (slice_get entries.now.list.now place)) }
{
    let Some(entry) = at(entries.list, place) else {
        return Err(Refusal::Breaks(JobCode::J10));
    };
    if count != entry.params.len() {
        return Err(Refusal::Breaks(JobCode::J11));
    }
    let Some(args) = read_arguments(alloc, entry.params.as_slice(), line)? else {
        return Err(Refusal::Breaks(JobCode::J12));
    };
    if calls >= MAX_CALLS {
        return Err(Refusal::Breaks(JobCode::J18));
    }
    Ok(Call {
        session,
        entry: place,
        args,
    })
}
