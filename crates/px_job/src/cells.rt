//! Words that stand for the values of a row.

ghost use Rattle.std.specs.Prelude.{◌≡◌, ◌≤◌, ◌<◌, ◌+◌, ◌++◌, List, ℕ, length, IfOk, Option, if◌then◌else◌, Some, None};
ghost use Rattle.px_job.specs.Words.{words_of};
ghost use Rattle.px_job.specs.Texts.{text_of};
ghost use Rattle.px_job.specs.Cells.{cell_of, cells_of};

use crate::texts::{read_text, text_len};
use crate::words::split_word;
use px_outside::read_i64;
use px_value::{Column, ColumnType, MAX_PARAMETER, Text, Value, Values};
use std::alloc::{AllocError, Global};

/// The values that the words stand for, each of its column.
pub(crate) fn read_cells(
    alloc: Global,
    columns: &[Column],
    line: &[u8],
) -> Result<Option<Values>, AllocError>
    requires { length (words_of line.now) ≡ length columns.now }
    ensures { IfOk result (λ values. values ≡ cells_of columns.now (words_of line.now)) }
{
    let mut values = Values::new(alloc);
    let mut rest = line;
    for column in columns {
        let Some((word, more)) = split_word(rest) else {
            return Ok(None);
        };
        let Some(value) = read_cell(alloc, column.ty, word)? else {
            return Ok(None);
        };
        values.push(value)?;
        rest = more;
    }
    Ok(Some(values))
}

// The value of the column that the word stands for.
fn read_cell(alloc: Global, ty: ColumnType, word: &[u8]) -> Result<Option<Value>, AllocError>
    ensures { IfOk result (λ value. value ≡ cell_of ty word.now) }
{
    match ty {
        ColumnType::Long => Ok(read_long(word)),
        ColumnType::Text => read_short(alloc, word),
    }
}

fn read_long(word: &[u8]) -> Option<Value>
    ensures { result ≡ cell_of ColumnType.Long word.now }
{
    Some(Value::Long(read_i64(word)?))
}

fn read_short(alloc: Global, word: &[u8]) -> Result<Option<Value>, AllocError>
    ensures { IfOk result (λ value. value ≡ cell_of ColumnType.Text word.now) }
{
    match text_len(word) {
        Some(len) if len <= MAX_PARAMETER => match read_text(alloc, word)? {
            Some(text) => Ok(Some(Value::Text(Text::from_vec(text)))),
            None => Ok(None),
        },
        _ => Ok(None),
    }
}
