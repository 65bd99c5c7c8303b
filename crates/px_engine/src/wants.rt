//! What an operation wants to lock.
ghost use Rattle.std.specs.Prelude.{◌≡◌, ◌∷◌, []};
ghost use Rattle.px_history.specs.Locking.{core_locks};
ghost use Rattle.px_history.specs.Places.{writes};
ghost use Rattle.px_rows.specs.Means.{table_of};

use px_locks::{Item, Mode, Want};
use px_value::{Statement, TableOp};

fn is_write(statement: &Statement) -> bool
    ensures { result ≡ writes statement.now }
{
    matches!(
        statement,
        Statement::Update { .. } | Statement::Insert { .. } | Statement::Delete { .. }
    )
}

fn table(statement: &Statement) -> u16
    ensures { result ≡ table_of statement.now }
{
    match statement {
        Statement::ByKey { table, .. } => *table,
        Statement::ByColumn { table, .. } => *table,
        Statement::All { table, .. } => *table,
        Statement::Update { table, .. } => *table,
        Statement::Insert { table } => *table,
        Statement::Delete { table } => *table,
    }
}

/// Its table: shared where it only reads, and else exclusive.
pub fn want_of(op: &TableOp) -> Want
    ensures { result ∷ [] ≡ core_locks.wants op.now }
{
    let mode = if is_write(&op.statement) {
        Mode::Exclusive
    } else {
        Mode::Shared
    };
    Want {
        item: Item {
            table: table(&op.statement),
            key: None,
        },
        mode,
    }
}
