//! Trees of parts, each of which may have failed to be made.
ghost use Rattle.std.specs.Prelude.{◌≡◌};
ghost use Rattle.px_tree.specs.Parts as parts;

use crate::{Expr, Stmt, StmtForm};
use sqlite_items::Boxed;
use std::alloc::AllocError;

fn both<A: Drop, B: Drop>(
    a: Result<A, AllocError>,
    b: Result<B, AllocError>,
) -> Result<(A, B), AllocError>
    ensures { result ≡ parts.both a b }
{
    let a = a?;
    let b = b?;
    Ok((a, b))
}

pub fn if_of(
    test: Result<Expr, AllocError>,
    yes: Result<Boxed<Stmt>, AllocError>,
    no: Result<Option<Boxed<Stmt>>, AllocError>,
) -> Result<StmtForm, AllocError>
    ensures { result ≡ parts.if_of test yes no }
{
    let (test, (yes, no)) = both(test, both(yes, no))?;
    Ok(StmtForm::If { test, yes, no })
}

pub fn while_of(
    test: Result<Expr, AllocError>,
    body: Result<Boxed<Stmt>, AllocError>,
) -> Result<StmtForm, AllocError>
    ensures { result ≡ parts.while_of test body }
{
    let (test, body) = both(test, body)?;
    Ok(StmtForm::While { test, body })
}

pub fn for_of(
    first: Result<Boxed<Stmt>, AllocError>,
    test: Result<Expr, AllocError>,
    last: Result<Boxed<Stmt>, AllocError>,
    body: Result<Boxed<Stmt>, AllocError>,
) -> Result<StmtForm, AllocError>
    ensures { result ≡ parts.for_of first test last body }
{
    let ((first, test), (last, body)) = both(both(first, test), both(last, body))?;
    Ok(StmtForm::For {
        first,
        test,
        last,
        body,
    })
}

pub fn statement_of(
    id: Result<u32, AllocError>,
    token: u32,
    form: Result<StmtForm, AllocError>,
) -> Result<Stmt, AllocError>
    ensures { result ≡ parts.statement_of id token form }
{
    let (id, form) = both(id, form)?;
    Ok(Stmt { id, token, form })
}
