//! Lines that a command doesn't take yet.

ghost use Rattle.std.specs.Prelude.{◌≡◌, ◌≤◌, ◌<◌, ◌^◌, length, false};
ghost use Rattle.px_job.specs.Lines.{lines_of};
ghost use Rattle.px_job.specs.Words.{words_of};
ghost use Rattle.px_job.specs.Verbs.{verb_of};
ghost use Rattle.px_job.specs.Beyond.{sets_more, is_beyond, beyond_by, beyond_from, begins_part, sets_budget, budgets_by, budget_from};

use crate::lines::split_line;
use crate::numbers::read_number;
use crate::parts::has_budget;
use crate::settings::Setting;
use crate::verbs::{Verb, verb_of};
use crate::words::split_word;

/// The first line of a job that two ends don't take yet: of more sessions than one, an order, loads,
/// a second part, or a part with a budget.
pub fn first_beyond(bytes: &[u8]) -> Option<u32>
    requires { length bytes.now < 2 ^ 31 }
    ensures { result ≡ beyond_from 1 false (lines_of bytes.now) }
{
    let mut number = 1;
    let mut parted = false;
    let mut rest = bytes;
    while !rest.is_empty() {
        let (line, more) = split_line(rest);
        if is_beyond(parted, line) {
            return Some(number);
        }
        if begins_part(line) {
            parted = true;
        }
        number += 1;
        rest = more;
    }
    None
}

// The same of one line, behind the line of a part or not.
fn is_beyond(parted: bool, line: &[u8]) -> bool
    ensures { result ≡ is_beyond parted (words_of line.now) }
{
    match split_word(line) {
        Some((verb, rest)) => is_beyond_by(parted, verb_of(verb), rest),
        None => false,
    }
}

fn is_beyond_by(parted: bool, verb: Option<Verb>, rest: &[u8]) -> bool
    ensures { result ≡ beyond_by parted verb (words_of rest.now) }
{
    match verb {
        Some(Verb::Set(Setting::Sessions)) => sets_more(rest),
        Some(Verb::Load | Verb::Order) => true,
        Some(Verb::Part) => parted || has_budget(rest),
        _ => false,
    }
}

// Whether the word isn't one.
fn sets_more(line: &[u8]) -> bool
    ensures { result ≡ sets_more (words_of line.now) }
{
    match split_word(line) {
        Some((word, _)) => read_number(word) != 1,
        None => false,
    }
}

fn begins_part(line: &[u8]) -> bool
    ensures { result ≡ begins_part (words_of line.now) }
{
    match split_word(line) {
        Some((verb, _)) => matches!(verb_of(verb), Some(Verb::Part)),
        None => false,
    }
}

/// The first line of a part with a budget.
pub fn first_budget(bytes: &[u8]) -> Option<u32>
    requires { length bytes.now < 2 ^ 31 }
    ensures { result ≡ budget_from 1 (lines_of bytes.now) }
{
    let mut number = 1;
    let mut rest = bytes;
    while !rest.is_empty() {
        let (line, more) = split_line(rest);
        if sets_budget(line) {
            return Some(number);
        }
        number += 1;
        rest = more;
    }
    None
}

fn sets_budget(line: &[u8]) -> bool
    ensures { result ≡ sets_budget (words_of line.now) }
{
    match split_word(line) {
        Some((verb, rest)) => budgets_by(verb_of(verb), rest),
        None => false,
    }
}

fn budgets_by(verb: Option<Verb>, rest: &[u8]) -> bool
    ensures { result ≡ budgets_by verb (words_of rest.now) }
{
    match verb {
        Some(Verb::Part) => has_budget(rest),
        _ => false,
    }
}
