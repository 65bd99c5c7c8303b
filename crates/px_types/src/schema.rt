//! Copies of schemas.
ghost use Rattle.std.specs.Prelude.{◌≡◌, IfOk};

use px_value::{Column, Schema, Table};
use sqlite_items::Items;
use std::alloc::{AllocError, Global};

pub fn copy_schema(alloc: Global, schema: &Schema) -> Result<Schema, AllocError>
    ensures { IfOk result (λ s. s ≡ schema.now) }
{
    let mut tables = Items::new(alloc);
    for table in schema.tables.as_slice() {
        tables.push(copy_table(alloc, table)?)?;
    }
    Ok(Schema { tables })
}

fn copy_table(alloc: Global, table: &Table) -> Result<Table, AllocError>
    ensures { IfOk result (λ t. t ≡ table.now) }
{
    let name = table.name.copy(alloc)?;
    let columns = copy_columns(alloc, table.columns.as_slice())?;
    Ok(Table { name, columns })
}

fn copy_columns(alloc: Global, columns: &[Column]) -> Result<Items<Column>, AllocError>
    ensures { IfOk result (λ all. all ≡ columns.now) }
{
    let mut all = Items::new(alloc);
    for column in columns {
        let name = column.name.copy(alloc)?;
        all.push(Column {
            name,
            ty: column.ty,
        })?;
    }
    Ok(all)
}
