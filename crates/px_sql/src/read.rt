//! The statement that a text means.
ghost use Rattle.std.specs.Prelude.{◌≡◌, IfOk};
ghost use Rattle.px_sql.specs.Tables.{IsSmall};
ghost use Rattle.px_sql.specs.Words as w;
ghost use Rattle.px_sql.specs.Spelling.{fit};
ghost use Rattle.px_sql.specs.Reading.{statement_of, spelled_in};

use crate::guess::likely;
use crate::over::is_over;
use crate::pieces::{is_trimmed, pieces_of};
use crate::schema::is_small;
use crate::spelling::fit;
use crate::words::words_of;
use px_value::{Schema, Statement, Text};
use std::alloc::{AllocError, Global};

/// The statement that the text means, if it has one of the six forms over the tables. Over more than
/// 100 tables, or one of more than 16 columns, it means none.
#[tactic(auto, unfolding(crate::specs::Reading::statement_of))]
pub fn read_statement(
    alloc: Global,
    schema: &Schema,
    text: &[u8],
) -> Result<Option<Statement>, AllocError>
    ensures { IfOk result (λ told. told ≡ statement_of schema.now text.now) }
{
    if !is_small(schema) {
        return Ok(None);
    }
    spelled_statement(alloc, schema, text)
}

fn spelled_statement(
    alloc: Global,
    schema: &Schema,
    text: &[u8],
) -> Result<Option<Statement>, AllocError>
    requires { IsSmall schema.now }
    ensures { IfOk result (λ told. told ≡ spelled_in schema.now text.now) }
{
    if !is_trimmed(text) {
        return Ok(None);
    }
    let pieces = pieces_of(alloc, text)?;
    let statement = likely(alloc, schema, pieces.as_slice())?;
    if !is_over(schema, &statement) {
        return Ok(None);
    }
    if !spells(alloc, schema, &statement, pieces.as_slice())? {
        return Ok(None);
    }
    Ok(Some(statement))
}

fn spells(
    alloc: Global,
    schema: &Schema,
    statement: &Statement,
    pieces: &[Text],
) -> Result<bool, AllocError>
    ensures { IfOk result (λ spelled. spelled ≡ fit (w.words_of schema.now statement.now) pieces.now) }
{
    let words = words_of(alloc, schema, statement)?;
    Ok(fit(words.as_slice(), pieces))
}
