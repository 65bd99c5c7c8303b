//! Tables and columns by their places and names.
ghost use Rattle.std.specs.Prelude.{◌≡◌, ◌≤◌, ◌<◌, ◌+◌, List, length, drop, slice_get};
ghost use Rattle.std.specs.Str.{bytes_eq};
ghost use Rattle.px_sql.specs.Words.{name_of, columns_of, name_at};
ghost use Rattle.px_sql.specs.Reading.{table_place, column_place};

use px_value::{Column, Schema, Table};
use sqlite_items::at;

/// The name of a table, empty where there is no such table.
pub(crate) fn name_of(schema: &Schema, table: u16) -> &[u8]
    ensures { result.now ≡ name_of schema.now table }
{
    match at(schema.tables.as_slice(), table as usize) {
        Some(table) => table.name.as_slice(),
        None => &[],
    }
}

/// The columns of a table, none where there is no such table.
pub(crate) fn columns_of(schema: &Schema, table: u16) -> &[Column]
    ensures { result.now ≡ columns_of schema.now table }
{
    match at(schema.tables.as_slice(), table as usize) {
        Some(table) => table.columns.as_slice(),
        None => &[],
    }
}

/// The name of a column, empty where there is no such column.
pub(crate) fn name_at(columns: &[Column], column: u8) -> &[u8]
    ensures { result.now ≡ name_at columns.now column }
{
    match at(columns, column as usize) {
        Some(column) => column.name.as_slice(),
        None => &[],
    }
}

/// The place of the table, that behind the last where there is no such table.
pub(crate) fn table_place(name: &[u8], tables: &[Table]) -> u16
    requires { length tables.now ≤ 100 }
    ensures { result ≡ table_place name.now tables.now }
{
    let mut place = 0;
    for table in tables {
        if name == table.name.as_slice() {
            return place;
        }
        place += 1;
    }
    place
}

/// The place of the column, that behind the last where there is no such column.
pub(crate) fn column_place(name: &[u8], columns: &[Column]) -> u8
    requires { length columns.now ≤ 16 }
    ensures { result ≡ column_place name.now columns.now }
{
    let mut place = 0;
    for column in columns {
        if name == column.name.as_slice() {
            return place;
        }
        place += 1;
    }
    place
}
