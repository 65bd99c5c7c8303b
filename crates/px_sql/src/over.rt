//! Which statements there are over some tables.
ghost use Rattle.std.specs.Prelude.{◌≡◌, ◌<◌, ◌==◌, nat_lt, List, ℕ, length, drop};
ghost use Rattle.std.specs.List.{list_all, list_any};
ghost use Rattle.px_sql.specs.Words.{has_place, are_columns, is_other, places_differ, is_over};

use crate::names::columns_of;
use px_value::{Column, Schema, Statement};

/// The most columns that a statement lists.
const MAX_LISTED: usize = 255;

/// Whether it is a statement over the tables.
pub(crate) fn is_over(schema: &Schema, statement: &Statement) -> bool
    ensures { result ≡ is_over schema.now statement.now }
{
    match statement {
        Statement::ByKey { table, columns } | Statement::All { table, columns } => {
            has_place(schema, *table) && are_columns(columns_of(schema, *table), columns.as_slice())
        }
        Statement::ByColumn {
            table,
            columns,
            column,
        } => {
            has_place(schema, *table)
                && are_columns(columns_of(schema, *table), columns.as_slice())
                && is_other(columns_of(schema, *table), *column)
        }
        Statement::Update { table, columns } => {
            has_place(schema, *table)
                && are_columns(columns_of(schema, *table), columns.as_slice())
                && has_no_key(columns.as_slice())
                && places_differ(columns.as_slice())
        }
        Statement::Insert { table } | Statement::Delete { table } => has_place(schema, *table),
    }
}

fn has_place(schema: &Schema, table: u16) -> bool
    ensures { result ≡ has_place schema.now table }
{
    (table as usize) < schema.tables.len()
}

fn are_columns(columns: &[Column], places: &[u8]) -> bool
    ensures { result ≡ are_columns columns.now places.now }
{
    !places.is_empty() && places.len() <= MAX_LISTED && are_below(columns.len(), places)
}

fn are_below(width: usize, places: &[u8]) -> bool
    ensures { result ≡ list_all (λ c. nat_lt c width) places.now }
{
    places.iter().all(|place| (*place as usize) < width)
}

fn is_other(columns: &[Column], column: u8) -> bool
    ensures { result ≡ is_other columns.now column }
{
    column > 0 && (column as usize) < columns.len()
}

fn has_no_key(places: &[u8]) -> bool
    ensures { result ≡ list_all (λ c. nat_lt 0 c) places.now }
{
    places.iter().all(|place| *place > 0)
}

fn has(place: u8, places: &[u8]) -> bool
    ensures { result ≡ list_any (λ d. d == place) places.now }
{
    places.iter().any(|other| *other == place)
}

fn places_differ(places: &[u8]) -> bool
    ensures { result ≡ places_differ places.now }
{
    let mut rest = places;
    while let [place, more @ ..] = rest {
        if has(*place, more) {
            return false;
        }
        rest = more;
    }
    true
}
