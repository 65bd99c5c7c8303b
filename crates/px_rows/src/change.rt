//! The row that a write leaves.
ghost use Rattle.std.specs.Prelude.{◌≡◌, IfOk, OnOk, Some};
ghost use Rattle.std.specs.Option.{option_copied, option_map};
ghost use Rattle.px_rows.specs.Means.{assigned, written_by, table_of, key_of};

use crate::copy::copied;
use crate::key::key_at;
use crate::tree::Node;
use px_value::{Statement, TableOp, Value, Values};
use std::alloc::{AllocError, Global};

pub fn table_of_statement(statement: &Statement) -> u16
    ensures { result ≡ table_of statement.now }
{
    match statement {
        Statement::ByKey { table, .. } => *table,
        Statement::ByColumn { table, .. } => *table,
        Statement::All { table, .. } => *table,
        Statement::Update { table, .. } => *table,
        Statement::Insert { table } => *table,
        Statement::Delete { table } => *table,
    }
}

pub fn key_of_op(op: &TableOp) -> i64
    ensures { result ≡ key_of op.now.statement op.now.params }
{
    match &op.statement {
        Statement::Insert { .. } => key_at(&op.params, 0),
        _ => key_at(&op.params, op.params.len().saturating_sub(1)),
    }
}

/// Sets these columns to the first parameters.
fn assign(
    alloc: Global,
    columns: &[u8],
    params: &[Value],
    row: &mut Values,
) -> Result<(), AllocError>
    ensures { OnOk result (row.new ≡ assigned columns.now params.now row.old) }
{
    match columns {
        [] => Ok(()),
        [column, columns @ ..] => match params {
            [] => Ok(()),
            [param, params @ ..] => {
                let column = usize::from(*column);
                if column < row.len() {
                    row.replace(column, param.copy(alloc)?);
                }
                assign(alloc, columns, params, row)
            }
        },
    }
}

fn node(alloc: Global, row: Values) -> Result<Option<Box<Node>>, AllocError>
    ensures { IfOk result (λ node. option_map (λ n. n.value.row) node ≡ Some row) }
{
    Ok(Some(Box::new(alloc, Node::new(row))?))
}

/// What a write leaves at its key, where it finds this row, or that it writes nothing.
pub fn write(
    alloc: Global,
    op: &TableOp,
    found: Option<&Values>,
) -> Result<Option<Option<Box<Node>>>, AllocError>
    ensures { IfOk result (λ left. option_map (option_map (λ n. n.value.row)) left ≡ written_by op.now.statement op.now.params (option_copied found.entry)) }
{
    match (&op.statement, found) {
        (Statement::Update { columns, .. }, Some(row)) => {
            let mut new = copied(alloc, row)?;
            assign(alloc, columns.as_slice(), op.params.as_slice(), &mut new)?;
            Ok(Some(node(alloc, new)?))
        }
        (Statement::Insert { .. }, None) => Ok(Some(node(alloc, copied(alloc, &op.params)?)?)),
        (Statement::Delete { .. }, Some(_)) => Ok(Some(None)),
        _ => Ok(None),
    }
}
