//! All tables of a program.
ghost use Rattle.std.specs.Prelude.{◌≡◌, ◌++◌, [], length, map, is_some, IfOk, OnOk, OnErr, IsErrOf, IsTrue, ◌↔◌};
ghost use Rattle.std.specs.Option.{option_copied, option_map};
ghost use Rattle.px_rows.specs.Tables.{empty_tables, row_at, has_key, rows_of, with_row, undone};
ghost use Rattle.px_rows.specs.Means.{answer_to, after, old_of, loaded, place_of, place_of_row, seen_by};

use crate::change::{key_of_op, table_of_statement, write};
use crate::choice::{cells, cells_of_found, cells_with, counted, inserted, rows_of_width};
use crate::key::key_at;
use crate::load::LoadError;
use crate::rows::Rows;
use crate::tree::Node;
use crate::undo::{Past, Undo};
use px_value::{Answer, Schema, Statement, TableOp, Values};
use sqlite_items::at;
use std::alloc::{AllocError, Global};
use std::marker::Model;

/// The tables that a program declares, which go by their numbers. A table that there isn't answers as an empty one, and nothing is written in it.
#[derive(Drop)]
pub struct Tables {
    tables: Vec<Rows>,
}

impl Model for Tables {
    ghost use Rattle.std.specs.Prelude.{List};
    ghost use Rattle.std.specs.Coded.{coded_ℤ, coded_list};
    ghost use Rattle.std.specs.FinMap.{code};
    ghost use Rattle.px_rows.specs.Tables.{Table};
    ghost use Rattle.px_value.specs.contracts.value.Value as stored;

    ghost Value = { List Table };

    ghost coded = { coded_list (code coded_ℤ (coded_list stored.the_row.coded)) };

    ghost view = { λ t. t.tables.items };
}

impl Tables {
    /// As many empty tables as the schema has.
    pub fn new(alloc: Global, schema: &Schema) -> Result<Tables, AllocError>
        ensures { IfOk result (λ t. t ≡ empty_tables schema.now.tables) }
    {
        let mut tables = Vec::new(alloc);
        for _ in schema.tables.as_slice() {
            tables.push(Rows::new())?;
        }
        Ok(Tables { tables })
    }

    pub fn len(&self) -> usize
        ensures { result ≡ length self.now }
    {
        self.tables.len()
    }

    /// Adds a row, whose first value is its key.
    pub fn load(&mut self, alloc: Global, table: u16, row: Values) -> Result<(), LoadError>
        ensures doubled { IsErrOf result LoadError.Doubled ↔ IsTrue (has_key self.old (place_of_row table row)) }
        ensures ok { OnOk result (self.new ≡ loaded table row self.old) }
        ensures err { OnErr result (self.new ≡ self.old) }
    {
        let key = key_at(&row, 0);
        if self.row(table, key).is_some() {
            return Err(LoadError::Doubled);
        }
        let node = Box::new(alloc, Node::new(row))?;
        self.set(table, key, Some(node));
        Ok(())
    }

    /// Leaves the row, or none, at the key. What stood there comes back.
    fn set(&mut self, table: u16, key: i64, node: Option<Box<Node>>) -> Option<Box<Node>>
        ensures old { option_map (λ n. n.value.row) result ≡ row_at self.old (record { table = table; key = key }) }
        ensures new { self.new ≡ with_row self.old (record { table = table; key = key }) (option_map (λ n. n.value.row) node) }
    {
        let place = usize::from(table);
        if place < self.tables.len() {
            self.tables[place].set(key, node)
        } else {
            None
        }
    }

    fn row(&self, table: u16, key: i64) -> Option<&Values>
        ensures { option_copied result ≡ row_at self.now (record { table = table; key = key }) }
    {
        match at(self.tables.as_slice(), usize::from(table)) {
            Some(rows) => rows.get(key),
            None => None,
        }
    }

    /// The rows of a table in order of the key.
    pub fn rows(&self, alloc: Global, table: usize) -> Result<Vec<&Values>, AllocError>
        ensures { IfOk result (λ rows. map (λ r. r.now) rows.items ≡ rows_of self.now table) }
    {
        match at(self.tables.as_slice(), table) {
            Some(rows) => rows.list(alloc),
            None => Ok(Vec::new(alloc)),
        }
    }

    /// What the operation answers on these tables.
    pub fn answer(&self, alloc: Global, op: &TableOp) -> Result<Answer, AllocError>
        ensures { IfOk result (λ a. a ≡ answer_to op.now self.now) }
    {
        match &op.statement {
            Statement::ByKey { columns, .. } => {
                let columns = columns.as_slice();
                let cells = cells_of_found(alloc, columns, self.found(op))?;
                Ok(rows_of_width(columns, cells))
            }
            Statement::ByColumn {
                table,
                columns,
                column,
            } => {
                let rows = self.rows(alloc, usize::from(*table))?;
                let columns = columns.as_slice();
                let cells = cells_with(alloc, columns, rows.as_slice(), *column, &op.params)?;
                Ok(rows_of_width(columns, cells))
            }
            Statement::All { table, columns } => {
                let rows = self.rows(alloc, usize::from(*table))?;
                let columns = columns.as_slice();
                let cells = cells(alloc, columns, rows.as_slice())?;
                Ok(rows_of_width(columns, cells))
            }
            Statement::Update { .. } => Ok(counted(self.found(op))),
            Statement::Insert { .. } => Ok(inserted(self.found(op))),
            Statement::Delete { .. } => Ok(counted(self.found(op))),
        }
    }

    /// The row at the key that the operation names.
    fn found(&self, op: &TableOp) -> Option<&Values>
        ensures { option_copied result ≡ row_at self.now (place_of op.now) }
    {
        self.row(table_of_statement(&op.statement), key_of_op(op))
    }

    /// Does what the operation writes. The rows that it changes go to the undo.
    pub fn apply(&mut self, alloc: Global, op: &TableOp, undo: &mut Undo) -> Result<(), AllocError>
        ensures ok { OnOk result (self.new ≡ after op.now self.old) }
        ensures undo { OnOk result (undo.new ≡ undo.old ++ old_of op.now self.old) }
        ensures err { OnErr result (self.new ≡ self.old) }
        ensures undo_err { OnErr result (undo.new ≡ undo.old) }
    {
        let Some(left) = write(alloc, op, self.found(op))? else {
            return Ok(());
        };
        undo.pasts.reserve(1)?;
        let table = table_of_statement(&op.statement);
        let key = key_of_op(op);
        let node = self.set(table, key, left);
        undo.pasts.push_reserved(Past { table, key, node });
        Ok(())
    }

    /// Puts the old rows back, the latest first. It takes no memory.
    pub fn undo(&mut self, undo: &mut Undo)
        ensures undone { self.new ≡ undone undo.old self.old }
        ensures none_left { undo.new ≡ [] }
    {
        while let Some(past) = undo.pasts.pop() {
            self.put_back(past);
        }
    }

    fn put_back(&mut self, past: Past)
        ensures { self.new ≡ with_row self.old past.place past.row }
    {
        let Past { table, key, node } = past;
        self.set(table, key, node);
    }
}
