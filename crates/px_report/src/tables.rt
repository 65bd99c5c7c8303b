//! The lines of the tables.
ghost use Rattle.std.specs.Prelude.{◌≡◌, ◌++◌, map, OnOk};
ghost use Rattle.std.specs.List.{flat_map};
ghost use Rattle.px_report.specs.Lines.{numbered};
ghost use Rattle.px_report.specs.Tables.{row_line, table_text, tables_text};

use crate::heaps::push_cells;
use px_rows::Tables;
use px_value::{Table, Value, Values};
use std::alloc::{AllocError, Global};

fn push_row(text: &mut Vec<u8>, row: &[Value]) -> Result<(), AllocError>
    ensures { OnOk result (text.new.items ≡ text.old.items ++ row_line row.now) }
{
    text.extend_from_slice(b"row")?;
    push_cells(text, row)?;
    text.push(b'\n')?;
    Ok(())
}

fn push_rows(text: &mut Vec<u8>, rows: &[&Values]) -> Result<(), AllocError>
    ensures { OnOk result (text.new.items ≡ text.old.items ++ flat_map row_line (map (λ row. row.now) rows.now)) }
{
    for row in rows {
        push_row(text, row.as_slice())?;
    }
    Ok(())
}

fn push_table(
    alloc: Global,
    text: &mut Vec<u8>,
    number: usize,
    table: &Table,
    tables: &Tables,
) -> Result<(), AllocError>
    ensures { OnOk result (text.new.items ≡ text.old.items ++ table_text tables.now number table.now) }
{
    text.extend_from_slice(b"table ")?;
    text.extend_from_slice(table.name.as_slice())?;
    text.push(b'\n')?;
    let rows = tables.rows(alloc, number)?;
    push_rows(text, &rows)
}

pub fn push_tables(
    alloc: Global,
    text: &mut Vec<u8>,
    schema: &[Table],
    tables: &Tables,
) -> Result<(), AllocError>
    ensures { OnOk result (text.new.items ≡ text.old.items ++ tables_text schema.now tables.now) }
{
    for (number, table) in schema.iter().enumerate() {
        push_table(alloc, text, number, table, tables)?;
    }
    Ok(())
}
