//! Lines that begin with `row`.

ghost use Rattle.std.specs.Prelude.{◌≡◌, ◌≤◌, ◌<◌, ◌==◌, length, slice_get};
ghost use Rattle.px_job.specs.Words.{words_of};
ghost use Rattle.px_job.specs.Rows.{table_of, short_place, place_named, row_in, judged_row};
ghost use Rattle.px_job.specs.Judging.{Judges};

use crate::arguments::count_values;
use crate::cells::read_cells;
use crate::job::{JobCode, Row};
use crate::judge::Refusal;
use crate::keys::Rows;
use crate::words::split_word;
use px_lex::is_identifier;
use px_value::Table;
use sqlite_items::at;
use std::alloc::Global;

/// The most rows of a job.
const MAX_ROWS: usize = 100_000;

/// The row of what stands behind `row`.
pub(crate) fn judge_row(
    alloc: Global,
    tables: &[Table],
    rows: &Rows,
    line: &[u8],
) -> Result<Row, Refusal>
    ensures { Judges result (judged_row tables.now rows.now (words_of line.now)) }
{
    let Some((name, rest)) = split_word(line) else {
        return Err(Refusal::Breaks(JobCode::J1));
    };
    let Some(count) = count_values(rest) else {
        return Err(Refusal::Breaks(JobCode::J1));
    };
    if count == 0 || !is_identifier(name) {
        return Err(Refusal::Breaks(JobCode::J1));
    }
    make_row(alloc, tables, rows, name, count, rest)
}

// A row of the table of a name, with so many values.
fn make_row(
    alloc: Global,
    tables: &[Table],
    rows: &Rows,
    name: &[u8],
    count: usize,
    line: &[u8],
) -> Result<Row, Refusal>
    requires { count ≡ length (words_of line.now) }
    ensures { Judges result (row_in tables.now rows.now (words_of line.now) (place_named tables.now name.now)) }
{
    let Some(place) = find_table(tables, name) else {
        return Err(Refusal::Breaks(JobCode::J6));
    };
    let Some(table) = at(tables, usize::from(place)) else {
        return Err(Refusal::Breaks(JobCode::J6));
    };
    if count != table.columns.len() {
        return Err(Refusal::Breaks(JobCode::J7));
    }
    let Some(values) = read_cells(alloc, table.columns.as_slice(), line)? else {
        return Err(Refusal::Breaks(JobCode::J8));
    };
    if rows.has_key(alloc, place, values.as_slice())? {
        return Err(Refusal::Breaks(JobCode::J9));
    }
    if rows.len() >= MAX_ROWS {
        return Err(Refusal::Breaks(JobCode::J19));
    }
    Ok(Row {
        table: place,
        values,
    })
}

fn find_table(tables: &[Table], name: &[u8]) -> Option<u16>
    ensures { result ≡ place_named tables.now name.now }
{
    let place = table_place(tables, name)?;
    if place < 1 << 16 {
        Some(place as u16)
    } else {
        None
    }
}

// The place of the first table of a name.
#[tactic(auto, unfolding(crate::specs::Rows::table_of))]
fn table_place(tables: &[Table], name: &[u8]) -> Option<usize>
    ensures { result ≡ table_of name.now tables.now }
{
    tables
        .iter()
        .position(|table| table.name.as_slice() == name)
}
