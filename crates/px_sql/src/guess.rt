//! The one statement that pieces may spell.
ghost use Rattle.std.specs.Prelude.{◌≡◌, ◌≤◌, ◌<◌, ◌+◌, ◌*◌, ◌++◌, ◌∷◌, [], List, ℕ, length, take, drop, map, true, IfOk};
ghost use Rattle.px_sql.specs.Tables.{IsSmall};
ghost use Rattle.px_sql.specs.Words.{columns_of};
ghost use Rattle.px_sql.specs.Reading as r;

use crate::names::{column_place, columns_of, table_place};
use crate::spelling::{Keyword, Sign, is_keyword, is_sign};
use px_value::{Column, Schema, Statement, Text};
use sqlite_items::{Items, at};
use std::alloc::{AllocError, Global};

/// If the pieces spell a statement, they spell this one.
#[tactic(auto, using(crate::proofs::Places::few))]
pub(crate) fn likely(
    alloc: Global,
    schema: &Schema,
    pieces: &[Text],
) -> Result<Statement, AllocError>
    requires { IsSmall schema.now }
    ensures { IfOk result (λ statement. statement ≡ r.likely schema.now pieces.now) }
{
    let first = piece_at(pieces, 0);
    if is_keyword(Keyword::Select, first) {
        likely_select(alloc, schema, pieces)
    } else if is_keyword(Keyword::Update, first) {
        likely_update(alloc, schema, pieces)
    } else if is_keyword(Keyword::Insert, first) {
        let table = table_place(piece_at(pieces, 2), schema.tables.as_slice());
        Ok(Statement::Insert { table })
    } else {
        let table = table_place(piece_at(pieces, 2), schema.tables.as_slice());
        Ok(Statement::Delete { table })
    }
}

#[tactic(auto, using(crate::proofs::Places::narrow, crate::proofs::Places::few))]
fn likely_select(alloc: Global, schema: &Schema, pieces: &[Text]) -> Result<Statement, AllocError>
    requires { IsSmall schema.now }
    ensures { IfOk result (λ statement. statement ≡ r.likely_select schema.now (r.due_pieces true (drop 1 pieces.now)) (drop (2 * length (r.due_pieces true (drop 1 pieces.now))) pieces.now)) }
{
    let names = due_pieces(alloc, from(pieces, 1))?;
    let rest = from(pieces, 2 * names.len());
    let table = table_place(piece_at(rest, 1), schema.tables.as_slice());
    let columns = columns_of(schema, table);
    let places = places_of(alloc, columns, names.as_slice())?;
    Ok(select_of(columns, table, places, rest))
}

// By what stands behind the list of columns, from FROM on.
fn select_of(columns: &[Column], table: u16, places: Items<u8>, rest: &[Text]) -> Statement
    requires { length columns.now ≤ 16 }
    ensures { result ≡ r.select_of columns.now table places rest.now }
{
    match rest.len() {
        5 => Statement::All {
            table,
            columns: places,
        },
        6 => Statement::ByKey {
            table,
            columns: places,
        },
        _ => Statement::ByColumn {
            table,
            columns: places,
            column: column_place(piece_at(rest, 3), columns),
        },
    }
}

#[tactic(auto, using(crate::proofs::Places::narrow, crate::proofs::Places::few))]
fn likely_update(alloc: Global, schema: &Schema, pieces: &[Text]) -> Result<Statement, AllocError>
    requires { IsSmall schema.now }
    ensures { IfOk result (λ statement. statement ≡ r.update_of schema.now (r.table_place (r.piece_at pieces.now 1) schema.now.tables) (r.due_pieces true (drop 3 pieces.now))) }
{
    let names = due_pieces(alloc, from(pieces, 3))?;
    let table = table_place(piece_at(pieces, 1), schema.tables.as_slice());
    let columns = places_of(alloc, columns_of(schema, table), names.as_slice())?;
    Ok(Statement::Update { table, columns })
}

fn piece_at(pieces: &[Text], index: usize) -> &[u8]
    ensures { result.now ≡ r.piece_at pieces.now index }
{
    match at(pieces, index) {
        Some(piece) => piece.as_slice(),
        None => &[],
    }
}

// The pieces without the first ones.
fn from(pieces: &[Text], count: usize) -> &[Text]
    ensures { result.now ≡ drop count pieces.now }
{
    if count < pieces.len() {
        &pieces[count..]
    } else {
        &[]
    }
}

// The first piece, and each one behind a comma.
fn due_pieces(alloc: Global, pieces: &[Text]) -> Result<Items<Text>, AllocError>
    ensures { IfOk result (λ due. due ≡ r.due_pieces true pieces.now) }
{
    let mut found = Items::new(alloc);
    let mut due = true;
    let mut rest = pieces;
    while let [piece, more @ ..] = rest {
        if due {
            found.push(piece.copy(alloc)?)?;
        }
        due = is_sign(Sign::Comma, piece.as_slice());
        rest = more;
    }
    Ok(found)
}

fn places_of(alloc: Global, columns: &[Column], names: &[Text]) -> Result<Items<u8>, AllocError>
    requires { length columns.now ≤ 16 }
    ensures { IfOk result (λ places. places ≡ r.places_of columns.now names.now) }
{
    let mut places = Items::new(alloc);
    for name in names {
        places.push(column_place(name.as_slice(), columns))?;
    }
    Ok(places)
}
