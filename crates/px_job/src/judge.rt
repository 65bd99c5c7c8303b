//! What one line makes.

ghost use Rattle.std.specs.Prelude.{◌≡◌, ◌==◌, nat_le, slice_index, length, not, ◌&&◌};
ghost use Rattle.std.specs.List.{list_any};
ghost use Rattle.px_job.specs.declared.judge.Refusal.TheVariants.{NoMemory};
ghost use Rattle.px_job.specs.Words.{words_of};
ghost use Rattle.px_job.specs.Judging.{judged_setting, judged_form, judged_words, judged, has_high_byte, noted_by, noted_words, noted, is_part_line, IsOnly, Judges, Makes};
ghost use Rattle.px_job.specs.Against.{against};
ghost use Rattle.px_job.specs.Verbs.{verb_of, setting_of};

use crate::arguments::is_digits;
use crate::calls::judge_call;
use crate::draft::Draft;
use crate::entries::Entries;
use crate::index::Index;
use crate::job::JobCode;
use crate::loads::{judge_load, judge_order};
use crate::numbers::read_number;
use crate::parts::{is_part, judge_part, judge_side};
use crate::rows::judge_row;
use crate::settings::{Setting, Stood};
use crate::verbs::{Verb, setting_of, verb_of};
use crate::words::split_word;
use px_value::Table;
use std::alloc::{AllocError, Global};

/// Why a line makes nothing.
#[derive(Clone, Copy)]
pub(crate) enum Refusal {
    Breaks(JobCode),
    NoMemory,
}

impl From<AllocError> for Refusal {
    ghost from_gives = { λ _ e. e ≡ NoMemory };

    fn from(_: AllocError) -> Self {
        Refusal::NoMemory
    }
}

/// What is known before the first line.
#[derive(Drop)]
pub(crate) struct Known<'a> {
    pub(crate) entries: Entries<'a>,
    pub(crate) tables: &'a [Table],
    pub(crate) index: Index<'a>,
    /// What the whole file tells.
    pub(crate) sessions: u16,
    pub(crate) parts: usize,
}

/// Judges a line behind those that made the draft, and adds what it makes.
pub(crate) fn judge(
    alloc: Global,
    known: &Known<'_>,
    draft: &mut Draft,
    line: &[u8],
) -> Result<(), Refusal>
    ensures { Makes result draft.new (judged (against known.now) draft.old line.now) }
{
    if has_high_byte(line) {
        return Err(Refusal::Breaks(JobCode::J1));
    }
    let Some((verb, rest)) = split_word(line) else {
        return Ok(());
    };
    if begins_comment(verb) {
        return Ok(());
    }
    judge_form(alloc, known, draft, verb, rest)
}

// The same of the line's first word and what stands behind it.
fn judge_form(
    alloc: Global,
    known: &Known<'_>,
    draft: &mut Draft,
    verb: &[u8],
    rest: &[u8],
) -> Result<(), Refusal>
    ensures { Makes result draft.new (judged_form (against known.now) draft.old (verb_of verb.now) (words_of rest.now)) }
{
    match verb_of(verb) {
        None => Err(Refusal::Breaks(JobCode::J1)),
        Some(Verb::Set(setting)) => {
            draft.stood = judge_setting(draft.stood, setting, rest)?;
            Ok(())
        }
        Some(Verb::Row) => {
            let row = judge_row(alloc, known.tables, &draft.rows, rest)?;
            draft.rows.push(alloc, row)?;
            Ok(())
        }
        Some(Verb::Part) => judge_part(alloc, &known.index, known.parts, &mut draft.parts, rest),
        Some(Verb::Side(side)) => judge_side(&known.index, &mut draft.parts, side, rest),
        Some(Verb::Call) => {
            let calls = draft.calls.len();
            let call = judge_call(alloc, &known.entries, known.sessions, calls, rest)?;
            draft.calls.push(call)?;
            Ok(())
        }
        Some(Verb::Load) => judge_load(alloc, known.sessions, &mut draft.loads, rest),
        Some(Verb::Order) => {
            let order = judge_order(alloc, known.sessions, draft.order.is_some(), rest)?;
            draft.order = Some(order);
            Ok(())
        }
    }
}

// The settings with one more, behind whose name the line stands.
fn judge_setting(stood: Stood, setting: Setting, line: &[u8]) -> Result<Stood, Refusal>
    ensures { Judges result (judged_setting stood setting (words_of line.now)) }
{
    let Some(word) = only_word(line) else {
        return Err(Refusal::Breaks(JobCode::J1));
    };
    if !is_digits(word) {
        return Err(Refusal::Breaks(JobCode::J1));
    }
    if stood.get(setting).is_some() {
        return Err(Refusal::Breaks(JobCode::J3));
    }
    let number = read_number(word);
    if number < setting.least() || number > setting.most() {
        return Err(Refusal::Breaks(JobCode::J4));
    }
    Ok(stood.with(setting, number))
}

// The word of a line that has no other.
fn only_word(line: &[u8]) -> Option<&[u8]>
    ensures { IsOnly result (words_of line.now) }
{
    let (word, rest) = split_word(line)?;
    match split_word(rest) {
        Some(_) => None,
        None => Some(word),
    }
}

/// What stood, with the number of a line that is the first of a setting's form.
pub(crate) fn note(stood: Stood, line: &[u8]) -> Stood
    ensures { result ≡ noted stood line.now }
{
    if has_high_byte(line) {
        return stood;
    }
    let Some((verb, rest)) = split_word(line) else {
        return stood;
    };
    note_words(stood, verb, rest)
}

fn note_words(stood: Stood, verb: &[u8], rest: &[u8]) -> Stood
    ensures { result ≡ noted_by stood (setting_of verb.now) (words_of rest.now) }
{
    match (setting_of(verb), only_word(rest)) {
        (Some(setting), Some(word)) => {
            if is_digits(word) && stood.get(setting).is_none() {
                stood.with(setting, read_number(word))
            } else {
                stood
            }
        }
        _ => stood,
    }
}

/// Whether the line has the form of a part.
pub(crate) fn is_part_line(line: &[u8]) -> bool
    ensures { result ≡ (not (has_high_byte line.now) && is_part_line (words_of line.now)) }
{
    if has_high_byte(line) {
        return false;
    }
    let Some((verb, rest)) = split_word(line) else {
        return false;
    };
    if begins_comment(verb) {
        return false;
    }
    matches!(verb_of(verb), Some(Verb::Part)) && is_part(rest)
}

// Whether a byte of the line is 128 or above.
fn has_high_byte(line: &[u8]) -> bool
    ensures { result ≡ has_high_byte line.now }
{
    line.iter().any(|byte| 128 <= *byte)
}

fn begins_comment(word: &[u8]) -> bool
    ensures { result ≡ (slice_index word.now 0 == 35) }
{
    matches!(word, [b'#', ..])
}
