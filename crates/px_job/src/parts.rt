//! Lines that begin with `part`, `app` or `db`.

ghost use Rattle.std.specs.Prelude.{◌≡◌, ◌≤◌, ◌+◌, ◌==◌, List, [], ◌∷◌, ◌++◌, IfOk, OnOk, length, None, Option, codes, false};
ghost use Rattle.std.specs.Option.{is_some};
ghost use Rattle.px_job.specs.Words.{words_of};
ghost use Rattle.px_job.specs.Judging.{Makes};
ghost use Rattle.px_job.specs.Rules.{least_code};
ghost use Rattle.px_job.specs.Prints.{is_print};
ghost use Rattle.px_job.specs.Parts.{budget_of, bounds_of, is_part, has_budget, full, last_of, begun, is_part_too_many, ends_low, is_too_much, first_side, first_sides, new_part, repeats_name, is_out_of_range, is_not_above, part_rules, with_part, part_by, judged_part, with_side, with_sides, placed, judged_side, no_parts, parts_or_app};

use crate::arguments::is_digits;
use crate::index::{Index, is_selector};
use crate::job::{JobCode, Part};
use crate::judge::Refusal;
use crate::numbers::read_number;
use crate::prints::Prints;
use crate::words::split_word;
use px_code::{Pins, Side};
use px_lex::is_identifier;
use px_normal::Node;
use px_value::Text;
use sqlite_items::Items;
use std::alloc::{AllocError, Global};
use std::mem;

/// The full load, per mille.
const FULL: u64 = 1000;

/// The greatest budget.
const MAX_BUDGET: u64 = 1_000_000_000_000;

/// The most parts of a job.
const MAX_PARTS: usize = 8;

/// What stands behind the name of a part.
#[derive(Clone, Copy)]
pub(crate) struct Bounds {
    upto: u64,
    budget: Option<u64>,
}

/// The parts that have begun; side lines are about the last.
#[derive(Drop)]
pub(crate) struct Parts {
    before: Items<Part>,
    last: Option<Part>,
}

impl Parts {
    pub(crate) fn new(alloc: Global) -> Parts
        ensures { result ≡ no_parts }
    {
        Parts {
            before: Items::new(alloc),
            last: None,
        }
    }

    /// The parts of the job, which has the part `app` where none has begun.
    pub(crate) fn finish(self, alloc: Global, index: &Index<'_>) -> Result<Items<Part>, AllocError>
        ensures { IfOk result (λ parts. parts ≡ parts_or_app index.now.code.now (begun self)) }
    {
        let Parts { before, last } = self;
        let mut parts = before;
        match last {
            Some(part) => parts.push(part)?,
            None if parts.is_empty() => {
                let bounds = Bounds {
                    upto: FULL,
                    budget: None,
                };
                parts.push(new_part(alloc, index, b"app", bounds)?)?;
            }
            None => {}
        }
        Ok(parts)
    }

    // Whether so many have begun.
    fn are(&self, count: usize) -> bool
        ensures { result ≡ (length (begun self.now) == count) }
    {
        match self.last {
            Some(_) => count > 0 && self.before.len() == count - 1,
            None => self.before.len() == count,
        }
    }

    // Whether there is no room for one more.
    fn is_full(&self) -> bool
        ensures { result ≡ is_part_too_many (length (begun self.now)) }
    {
        match self.last {
            Some(_) => self.before.len() >= MAX_PARTS - 1,
            None => self.before.len() >= MAX_PARTS,
        }
    }

    fn has_name(&self, name: &[u8]) -> bool
        ensures { result ≡ repeats_name (begun self.now) name.now }
    {
        any_named(self.before.as_slice(), name) || self.is_last_named(name)
    }

    fn is_last_named(&self, name: &[u8]) -> bool
        ensures { result ≡ repeats_name (last_of self.now.last) name.now }
    {
        match &self.last {
            Some(part) => part.name.as_slice() == name,
            None => false,
        }
    }

    // Whether the last serves up to as much.
    fn reaches(&self, upto: u64) -> bool
        ensures { result ≡ is_not_above self.now.last upto }
    {
        match &self.last {
            Some(part) => upto <= part.upto as u64,
            None => false,
        }
    }

    fn push(&mut self, part: Part) -> Result<(), AllocError>
        ensures { OnOk result (self.new ≡ with_part self.old part) }
    {
        match mem::replace(&mut self.last, Some(part)) {
            Some(before) => self.before.push(before),
            None => Ok(()),
        }
    }
}

fn any_named(parts: &[Part], name: &[u8]) -> bool
    ensures { result ≡ repeats_name parts.now name.now }
{
    parts.iter().any(|part| part.name.as_slice() == name)
}

/// Adds the part of what stands behind `part`, in a file of so many parts.
pub(crate) fn judge_part(
    alloc: Global,
    index: &Index<'_>,
    all: usize,
    parts: &mut Parts,
    line: &[u8],
) -> Result<(), Refusal>
    ensures { Makes result parts.new (judged_part index.now.code.now all parts.old (words_of line.now)) }
{
    let Some((name, rest)) = split_word(line) else {
        return Err(Refusal::Breaks(JobCode::J1));
    };
    if !is_identifier(name) {
        return Err(Refusal::Breaks(JobCode::J1));
    }
    let Some(bounds) = read_bounds(rest) else {
        return Err(Refusal::Breaks(JobCode::J1));
    };
    if let Some(code) = broken_rule(all, parts, name, bounds) {
        return Err(Refusal::Breaks(code));
    }
    let part = new_part(alloc, index, name, bounds)?;
    parts.push(part)?;
    Ok(())
}

/// Whether what stands behind `part` has its form.
pub(crate) fn is_part(line: &[u8]) -> bool
    ensures { result ≡ is_part (words_of line.now) }
{
    match split_word(line) {
        Some((name, rest)) => is_identifier(name) && read_bounds(rest).is_some(),
        None => false,
    }
}

/// Whether what stands behind `part` has its form, and a budget.
pub(crate) fn has_budget(line: &[u8]) -> bool
    ensures { result ≡ has_budget (words_of line.now) }
{
    match split_word(line) {
        Some((_, rest)) => match read_bounds(rest) {
            Some(bounds) => bounds.budget.is_some(),
            None => false,
        },
        None => false,
    }
}

// What stands behind the name of a part.
fn read_bounds(line: &[u8]) -> Option<Bounds>
    ensures { result ≡ bounds_of (words_of line.now) }
{
    let (word, rest) = split_word(line)?;
    let (upto, rest) = split_word(rest)?;
    if word != b"upto".as_slice() || !is_digits(upto) {
        return None;
    }
    let budget = read_budget(rest)?;
    Some(Bounds {
        upto: read_number(upto),
        budget,
    })
}

// What stands behind the number of a part.
fn read_budget(line: &[u8]) -> Option<Option<u64>>
    ensures { result ≡ budget_of (words_of line.now) }
{
    let Some((word, rest)) = split_word(line) else {
        return Some(None);
    };
    let (amount, rest) = split_word(rest)?;
    if split_word(rest).is_some() {
        return None;
    }
    if word != b"budget".as_slice() || !is_digits(amount) {
        return None;
    }
    Some(Some(read_number(amount)))
}

// The least code of a rule that a part breaks.
fn broken_rule(all: usize, parts: &Parts, name: &[u8], bounds: Bounds) -> Option<JobCode>
    ensures code { result ≡ least_code (part_rules all parts.now name.now bounds) }
    ensures within { result ≡ None → bounds.upto ≤ full }
{
    if parts.has_name(name) {
        return Some(JobCode::J3);
    }
    if is_out_of_range(bounds) {
        return Some(JobCode::J4);
    }
    if parts.reaches(bounds.upto) {
        return Some(JobCode::J16);
    }
    if ends_low(parts, all, bounds.upto) {
        return Some(JobCode::J17);
    }
    if parts.is_full() {
        return Some(JobCode::J20);
    }
    None
}

fn is_out_of_range(bounds: Bounds) -> bool
    ensures code { result ≡ is_out_of_range bounds }
    ensures within { result ≡ false → bounds.upto ≤ full }
{
    bounds.upto > FULL || is_too_much(bounds.budget)
}

fn is_too_much(budget: Option<u64>) -> bool
    ensures { result ≡ is_too_much budget }
{
    match budget {
        Some(budget) => budget > MAX_BUDGET,
        None => false,
    }
}

fn ends_low(parts: &Parts, all: usize, upto: u64) -> bool
    ensures { result ≡ ends_low (length (begun parts.now)) all upto }
{
    all > 0 && parts.are(all - 1) && upto != FULL
}

// A part of these bounds.
fn new_part(
    alloc: Global,
    index: &Index<'_>,
    name: &[u8],
    bounds: Bounds,
) -> Result<Part, AllocError>
    requires { bounds.upto ≤ full }
    ensures { IfOk result (λ part. part ≡ new_part index.now.code.now name.now bounds) }
{
    let nodes = index.code.nodes.as_slice();
    Ok(Part {
        name: Text::from_vec(name.to_vec(alloc)?),
        upto: bounds.upto as u16,
        budget: bounds.budget,
        sides: Pins {
            sides: first_sides(alloc, bounds.budget.is_some(), &index.prints, nodes)?,
        },
    })
}

// The sides of nodes before any line sets them.
fn first_sides(
    alloc: Global,
    has_budget: bool,
    prints: &Prints,
    nodes: &[Node],
) -> Result<Items<Option<Side>>, AllocError>
    ensures { IfOk result (λ sides. sides ≡ first_sides has_budget prints.now 1 nodes.now) }
{
    let mut sides = Items::new(alloc);
    let mut number = 0;
    for _node in nodes {
        number += 1;
        sides.push(side_of(has_budget, prints, number))?;
    }
    Ok(sides)
}

fn side_of(has_budget: bool, prints: &Prints, number: usize) -> Option<Side>
    ensures { result ≡ first_side (is_print prints.now number) has_budget }
{
    first_side(prints.has(number), has_budget)
}

fn first_side(is_print: bool, has_budget: bool) -> Option<Side>
    ensures { result ≡ first_side is_print has_budget }
{
    if is_print || !has_budget {
        Some(Side::App)
    } else {
        None
    }
}

/// Sets what is selected by what stands behind `app` or `db`.
pub(crate) fn judge_side(
    index: &Index<'_>,
    parts: &mut Parts,
    side: Side,
    line: &[u8],
) -> Result<(), Refusal>
    ensures { Makes result parts.new (judged_side index.now.code.now parts.old side (words_of line.now)) }
{
    if !is_selector(line) {
        return Err(Refusal::Breaks(JobCode::J1));
    }
    let Some(part) = mem::replace(&mut parts.last, None) else {
        return Err(Refusal::Breaks(JobCode::J13));
    };
    let Some(numbers) = index.select(line) else {
        return Err(Refusal::Breaks(JobCode::J14));
    };
    if index.places_print(side, numbers) {
        return Err(Refusal::Breaks(JobCode::J15));
    }
    parts.last = Some(placed(part, side, numbers));
    Ok(())
}

fn placed(part: Part, side: Side, numbers: &[usize]) -> Part
    ensures { result ≡ placed side numbers.now part }
{
    let Part {
        name,
        upto,
        budget,
        sides,
    } = part;
    let Pins { mut sides } = sides;
    for number in numbers {
        set_side(&mut sides, side, *number);
    }
    Part {
        name,
        upto,
        budget,
        sides: Pins { sides },
    }
}

// A number that no node has sets nothing.
fn set_side(sides: &mut Items<Option<Side>>, side: Side, number: usize)
    ensures { sides.new ≡ with_side side number sides.old }
{
    if number > 0 && number <= sides.len() {
        sides.set(number - 1, Some(side));
    }
}
