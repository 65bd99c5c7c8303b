//! A job file.

ghost use Rattle.std.specs.Prelude.{◌≡◌, ◌≤◌, ◌<◌, ◌^◌, length, [], IfOk};
ghost use Rattle.px_job.specs.Lines.{lines_of};
ghost use Rattle.px_job.specs.Against.{against};
ghost use Rattle.px_job.specs.Judging.{parts_in};
ghost use Rattle.px_job.specs.Settings.{nothing_stood, settings_of};
ghost use Rattle.px_job.specs.Jobs.{noted_from, drafted_from, nothing_yet, job_under, job_with, job_from, job_of, Gives};

use crate::draft::Draft;
use crate::entries::Entries;
use crate::groups::{Groups, Key, keys_but_prints};
use crate::index::Index;
use crate::job::{Job, JobError, JobFault};
use crate::judge::{Known, Refusal, is_part_line, judge, note};
use crate::keys::Rows;
use crate::lines::split_line;
use crate::loads::Loads;
use crate::parts::Parts;
use crate::prints::Prints;
use crate::settings::{Settings, Stood};
use crate::titles::{titles_of_fields, titles_of_methods};
use px_facts::{Checked, Entry};
use px_normal::Code;
use px_value::{Schema, Table};
use sqlite_items::Items;
use std::alloc::{AllocError, Global};

/// The job of a file, for a program, its tables and its code, or the first line that breaks a rule
/// and its smallest code.
///
/// Beside the lengths of the file and the code, it takes as long as side lines select nodes.
#[tactic(auto, unfolding(crate::specs::Jobs::job_of))]
pub fn read_job(
    alloc: Global,
    bytes: &[u8],
    checked: &Checked,
    schema: &Schema,
    code: &Code,
) -> Result<Job, JobError>
    requires { length bytes.now < 2 ^ 31 }
    ensures { Gives result (job_of checked.now schema.now code.now bytes.now) }
{
    let prints = Prints::new(alloc, code)?;
    let nodes = code.nodes.as_slice();
    let owners = Groups::new(alloc, keys_but_prints(alloc, Key::Method, &prints, nodes)?)?;
    let methods = titles_of_methods(
        alloc,
        code.classes.as_slice(),
        &owners,
        code.methods.as_slice(),
    )?;
    let fields = titles_of_fields(alloc, code.classes.as_slice())?;
    let index = Index::new(alloc, code, prints, methods.as_slice(), fields.as_slice())?;
    let entries = checked.facts.main.entries.as_slice();
    read_with(alloc, bytes, entries, schema.tables.as_slice(), index)
}

// The job of a file, for what is known of a program.
fn read_with<'a>(
    alloc: Global,
    bytes: &[u8],
    entries: &'a [Entry],
    tables: &'a [Table],
    index: Index<'a>,
) -> Result<Job, JobError>
    requires { length bytes.now < 2 ^ 31 }
    ensures { Gives result (job_from entries.now tables.now index.entry.code.now (lines_of bytes.now)) }
{
    let settings = read_settings(bytes);
    let known = Known {
        entries: Entries::new(alloc, entries)?,
        tables,
        index,
        sessions: settings.sessions,
        parts: count_parts(bytes),
    };
    let draft = read_draft(alloc, bytes, &known)?;
    Ok(finish(alloc, &known.index, settings, draft)?)
}

// The settings, which hold for the whole file.
fn read_settings(bytes: &[u8]) -> Settings
    ensures { result ≡ settings_of (noted_from nothing_stood (lines_of bytes.now)) }
{
    let mut stood = Stood::new();
    let mut rest = bytes;
    while !rest.is_empty() {
        let (line, more) = split_line(rest);
        stood = note(stood, line);
        rest = more;
    }
    stood.settings()
}

// How many parts the file has.
fn count_parts(bytes: &[u8]) -> usize
    ensures { result ≡ parts_in (lines_of bytes.now) }
{
    let mut count = 0;
    let mut rest = bytes;
    while !rest.is_empty() {
        let (line, more) = split_line(rest);
        if is_part_line(line) {
            count += 1;
        }
        rest = more;
    }
    count
}

// What all lines make.
fn read_draft(alloc: Global, bytes: &[u8], known: &Known<'_>) -> Result<Draft, JobError>
    requires { length bytes.now < 2 ^ 31 }
    ensures { Gives result (drafted_from (against known.now) 1 (nothing_yet known.now.sessions) (lines_of bytes.now)) }
{
    let mut draft = new_draft(alloc, known.sessions)?;
    let mut number = 1;
    let mut rest = bytes;
    while !rest.is_empty() {
        let (line, more) = split_line(rest);
        match judge(alloc, known, &mut draft, line) {
            Ok(()) => {}
            Err(Refusal::Breaks(code)) => {
                let line = number;
                return Err(JobError::Fault(JobFault { line, code }));
            }
            Err(Refusal::NoMemory) => return Err(JobError::NoMemory),
        }
        number += 1;
        rest = more;
    }
    Ok(draft)
}

fn new_draft(alloc: Global, sessions: u16) -> Result<Draft, AllocError>
    ensures { IfOk result (λ draft. draft ≡ nothing_yet sessions) }
{
    Ok(Draft {
        stood: Stood::new(),
        rows: Rows::new(alloc),
        parts: Parts::new(alloc),
        calls: Items::new(alloc),
        loads: Loads::new(alloc, sessions)?,
        order: None,
    })
}

fn finish(
    alloc: Global,
    index: &Index<'_>,
    settings: Settings,
    draft: Draft,
) -> Result<Job, AllocError>
    ensures { IfOk result (λ job. job ≡ job_with index.now.code.now settings draft) }
{
    let Draft {
        stood: _,
        rows,
        parts,
        calls,
        loads,
        order,
    } = draft;
    Ok(Job {
        settings,
        rows: rows.into_items(),
        parts: parts.finish(alloc, index)?,
        calls,
        loads: loads.into_items(),
        order: match order {
            Some(order) => order,
            None => Items::new(alloc),
        },
    })
}
