//! Jobs, and what is wrong with a file that is none.

ghost use Rattle.std.specs.Prelude.{◌≡◌};
ghost use Rattle.px_job.specs.declared.job.JobError.TheVariants.{NoMemory};

use crate::settings::Settings;
use px_code::Pins;
use px_value::{Text, Values};
use sqlite_items::Items;
use std::alloc::AllocError;
use thiserror::Error;

/// A row that a table has before the first call.
#[derive(Drop)]
pub struct Row {
    /// The place of the table among those of the program.
    pub table: u16,
    /// As many as the table has columns, each of its column's type; the first is the key.
    pub values: Values,
}

/// A call of an entry.
#[derive(Drop)]
pub struct Call {
    /// The number of the session that calls, from 1.
    pub session: u16,
    /// The place of the entry among those of the program.
    pub entry: usize,
    /// As many as the entry has parameters, each of its parameter's type.
    pub args: Values,
}

/// How a program is split under some loads.
#[derive(Drop)]
pub struct Part {
    pub name: Text,
    /// The highest average load, per mille, under which it serves.
    pub upto: u16,
    /// Under how great a load at DB the chooser places what the file doesn't.
    pub budget: Option<u64>,
    /// What the file places, by the number of the node from 1; each node where there is no budget.
    pub sides: Pins,
}

/// What a file tells.
#[derive(Drop)]
pub struct Job {
    pub settings: Settings,
    /// In the order of the file.
    pub rows: Items<Row>,
    /// In the order of the file, which is that of their loads; at least one.
    pub parts: Items<Part>,
    /// In the order of the file.
    pub calls: Items<Call>,
    /// For each session the loads, per mille, that it reads one after the other.
    pub loads: Items<Items<u16>>,
    /// The sessions, from 1, in the order in which they go on.
    pub order: Items<u16>,
}

/// The rule that a line breaks.
#[derive(Clone, Copy, Debug, PartialEq, Eq)]
pub enum JobCode {
    /// Its command doesn't take the line yet.
    Later,
    /// The line has none of the forms.
    J1,
    /// It repeats a setting, `order`, or a part's name.
    J3,
    /// It has a number outside its range.
    J4,
    /// It names a session that isn't there.
    J5,
    /// It names an unknown table.
    J6,
    /// It has a wrong number of row values.
    J7,
    /// It has a row value of a wrong type, null, outside 64 bits, or too long.
    J8,
    /// It repeats a key.
    J9,
    /// It names an unknown entry.
    J10,
    /// It has a wrong number of arguments.
    J11,
    /// It has an argument of a wrong type, out of its type's range, or too long.
    J12,
    /// It sets sides before the first part.
    J13,
    /// It names an unknown class, method or field, or a line that has no statement and no site.
    J14,
    /// It places a print at DB.
    J15,
    /// It is a part that doesn't serve up to more than the part before.
    J16,
    /// It is the last part, and doesn't serve up to the full load.
    J17,
    /// It is one call too many.
    J18,
    /// It is one row too many.
    J19,
    /// It is one part too many, or has one entry of the order or one reading of a session too many.
    J20,
}

/// A line, from 1, and the rule that it breaks.
#[derive(Clone, Copy, Debug, PartialEq, Eq)]
pub struct JobFault {
    pub line: u32,
    pub code: JobCode,
}

/// Why there is no job.
#[derive(Clone, Copy, Debug, PartialEq, Eq, Error)]
pub enum JobError {
    #[error("line {} breaks {:?}", .0.line, .0.code)]
    Fault(JobFault),
    #[error("out of memory")]
    NoMemory,
}

impl From<AllocError> for JobError {
    ghost from_gives = { λ _ e. e ≡ NoMemory };

    fn from(_: AllocError) -> Self {
        JobError::NoMemory
    }
}
