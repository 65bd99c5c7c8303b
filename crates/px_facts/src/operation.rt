//! Calls of `Db`.
ghost use Rattle.std.specs.Prelude.{◌≡◌, IfOk};

use crate::types::Ty;
use px_value::Statement;
use sqlite_items::Items;
use std::alloc::{AllocError, Global};

/// What a call of `Db` asks for.
#[derive(Drop)]
pub struct Operation {
    pub statement: Statement,
    /// The types of its parameters.
    pub params: Items<Ty>,
}

pub fn copy_statement(alloc: Global, statement: &Statement) -> Result<Statement, AllocError>
    ensures { IfOk result (λ s. s ≡ statement.now) }
{
    match statement {
        Statement::ByKey { table, columns } => Ok(Statement::ByKey {
            table: *table,
            columns: Items::from_slice(alloc, columns.as_slice())?,
        }),
        Statement::ByColumn {
            table,
            columns,
            column,
        } => Ok(Statement::ByColumn {
            table: *table,
            columns: Items::from_slice(alloc, columns.as_slice())?,
            column: *column,
        }),
        Statement::All { table, columns } => Ok(Statement::All {
            table: *table,
            columns: Items::from_slice(alloc, columns.as_slice())?,
        }),
        Statement::Update { table, columns } => Ok(Statement::Update {
            table: *table,
            columns: Items::from_slice(alloc, columns.as_slice())?,
        }),
        Statement::Insert { table } => Ok(Statement::Insert { table: *table }),
        Statement::Delete { table } => Ok(Statement::Delete { table: *table }),
    }
}

impl Operation {
    pub fn copy(&self, alloc: Global) -> Result<Operation, AllocError>
        ensures { IfOk result (λ o. o ≡ self.now) }
    {
        Ok(Operation {
            statement: copy_statement(alloc, &self.statement)?,
            params: Items::from_slice(alloc, self.params.as_slice())?,
        })
    }
}
