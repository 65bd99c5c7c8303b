//! Whether statements reach their ends.
ghost use Rattle.std.specs.Prelude.{◌≡◌, map, option_map, true};
ghost use Rattle.px_lowering.specs.Statements.{completes as completes_stmt, last_completes as last_completes_of, either_completes as either_completes_of};

use px_tree::{Stmt, StmtForm};
use sqlite_items::Boxed;

/// Whether a statement can complete normally.
#[cycle(completes)]
#[tactic(auto, using(crate::proofs::StmtForms::completing))]
pub fn completes(s: &Stmt) -> bool
    ensures { result ≡ completes_stmt s.now }
{
    match &s.form {
        StmtForm::Block(items) => last_completes(items.as_slice()),
        StmtForm::Return(_) => false,
        StmtForm::If { test: _, yes, no } => either_completes(no, yes.get()),
        _ => true,
    }
}

// Whether the last one can.
#[cycle(completes)]
fn last_completes(items: &[Stmt]) -> bool
    ensures { result ≡ last_completes_of true (map completes_stmt items.now) }
{
    let mut last = true;
    for item in items {
        last = completes(item);
    }
    last
}

// Whether one of the branches of an `if` can.
#[cycle(completes)]
fn either_completes(no: &Option<Boxed<Stmt>>, yes: &Stmt) -> bool
    ensures { result ≡ either_completes_of (completes_stmt yes.now) (option_map completes_stmt no.now) }
{
    match no {
        None => true,
        Some(no) => {
            let yes = completes(yes);
            let no = completes(no.get());
            yes || no
        }
    }
}
