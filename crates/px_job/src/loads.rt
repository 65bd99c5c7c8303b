//! Lines that begin with `load` or `order`.

ghost use Rattle.std.specs.Prelude.{◌≡◌, ◌≤◌, ◌<◌, ◌+◌, ◌-◌, ◌++◌, [], ◌∷◌, length, slice_get, slice_set, OnOk, IfOk, List, ℕ, Some, IfSome, not, nat_lt, replicate};
ghost use Rattle.std.specs.Option.{option_map};
ghost use Rattle.px_job.specs.Words.{words_of};
ghost use Rattle.px_job.specs.Loads.{max_readings, loads_with, judged_load, judged_order};
ghost use Rattle.px_job.specs.Judging.{Judges, Makes};

use crate::arguments::is_digits;
use crate::job::JobCode;
use crate::judge::Refusal;
use crate::numbers::{are_digits, read_numbers, read_within};
use crate::words::split_word;
use sqlite_items::Items;
use std::alloc::{AllocError, Global};
use std::marker::Model;

/// The most readings of a session.
const MAX_READINGS: usize = 2000;

/// The greatest load, per mille.
const FULL_LOAD: u16 = 1000;

/// The most entries of the order.
const MAX_ORDER: usize = 10_000;

/// A list of loads for each session.
#[derive(Drop)]
pub(crate) struct Loads {
    lists: Vec<Items<u16>>,
}

impl Model for Loads {
    ghost use Rattle.std.specs.Prelude.{List, ℕ};

    ghost Value = { List (List ℕ) };

    ghost view = { λ l. l.lists.items };
}

impl Loads {
    /// Empty lists for so many sessions.
    pub(crate) fn new(alloc: Global, sessions: u16) -> Result<Loads, AllocError>
        ensures { IfOk result (λ loads. loads ≡ replicate sessions []) }
    {
        let mut lists = Vec::new(alloc);
        for _session in 0..sessions {
            lists.push(Items::new(alloc))?;
        }
        Ok(Loads { lists })
    }

    pub(crate) fn into_items(self) -> Items<Items<u16>>
        ensures { result ≡ self }
    {
        Items::from_vec(self.lists)
    }

    // How many readings a session has, by its place.
    fn count(&self, place: usize) -> Option<usize>
        ensures value { result ≡ option_map length (slice_get self.now place) }
        ensures within { IfSome result (λ _. place < length self.now) }
    {
        match self.lists.get(place) {
            Some(list) => Some(list.len()),
            None => None,
        }
    }

    fn append(&mut self, place: usize, readings: Items<u16>) -> Result<(), AllocError>
        requires { place < length self.old }
        ensures { OnOk result ((load : List ℕ) → slice_get self.old place ≡ Some load → self.new ≡ slice_set self.old place (load ++ readings)) }
    {
        self.lists[place].append(readings)
    }
}

/// The loads with the readings of what stands behind `load`.
pub(crate) fn judge_load(
    alloc: Global,
    sessions: u16,
    loads: &mut Loads,
    line: &[u8],
) -> Result<(), Refusal>
    ensures { Makes result loads.new (judged_load sessions loads.old (words_of line.now)) }
{
    let Some((session, rest)) = split_word(line) else {
        return Err(Refusal::Breaks(JobCode::J1));
    };
    if !is_digits(session) || !are_digits(rest) {
        return Err(Refusal::Breaks(JobCode::J1));
    }
    let Some(readings) = read_numbers(alloc, 0, FULL_LOAD, rest)? else {
        return Err(Refusal::Breaks(JobCode::J4));
    };
    let Some(session) = read_within(1, sessions, session) else {
        return Err(Refusal::Breaks(JobCode::J5));
    };
    add_readings(loads, usize::from(session) - 1, readings)
}

fn add_readings(loads: &mut Loads, place: usize, readings: Items<u16>) -> Result<(), Refusal>
    ensures { Makes result loads.new (loads_with loads.old place (slice_get loads.old place) (Some readings)) }
{
    let Some(count) = loads.count(place) else {
        return Err(Refusal::Breaks(JobCode::J5));
    };
    if !has_room(count, readings.len()) {
        return Err(Refusal::Breaks(JobCode::J20));
    }
    loads.append(place, readings)?;
    Ok(())
}

// Whether a session may have so many readings and so many more.
fn has_room(count: usize, more: usize) -> bool
    ensures { result ≡ not (nat_lt max_readings (count + more)) }
{
    more <= MAX_READINGS && count <= MAX_READINGS - more
}

/// The order of what stands behind `order`, behind another line of the form or not.
pub(crate) fn judge_order(
    alloc: Global,
    sessions: u16,
    repeated: bool,
    line: &[u8],
) -> Result<Items<u16>, Refusal>
    ensures { Judges result (judged_order sessions repeated (words_of line.now)) }
{
    if !are_digits(line) {
        return Err(Refusal::Breaks(JobCode::J1));
    }
    if repeated {
        return Err(Refusal::Breaks(JobCode::J3));
    }
    let Some(order) = read_numbers(alloc, 1, sessions, line)? else {
        return Err(Refusal::Breaks(JobCode::J5));
    };
    if order.len() > MAX_ORDER {
        return Err(Refusal::Breaks(JobCode::J20));
    }
    Ok(order)
}
