//! The places where objects, arrays and rows are made, in the order of the text.
ghost use Rattle.std.specs.Prelude.{◌≡◌, ◌++◌, map, option_map, IfOk, OnOk};
ghost use Rattle.px_lowering.specs.Allocations as specs;

use crate::facts::{element_number, named_at, type_at};
use px_facts::{Checked, Named, Ty as Static};
use px_tree::{Expr, ExprForm, Stmt, StmtForm};
use px_value::Kind;
use sqlite_items::{Boxed, Items};
use std::alloc::AllocError;

/// An expression that allocates.
#[derive(Clone, Copy, Debug, PartialEq, Eq)]
pub struct Allocation {
    pub kind: Kind,
    /// Its first token.
    pub token: u32,
    /// The number of the method in which it stands.
    pub method: u16,
}

fn kind_of(named: Named, ty: Static) -> Result<Option<Kind>, AllocError>
    ensures { IfOk result (λ k. k ≡ specs.kind_of named ty) }
{
    match (named, ty) {
        (Named::NewObject { class, site: _ }, _) => Ok(Some(Kind::Object(class))),
        (Named::NewArray { site: _ }, Static::Array(element)) => {
            let number = element_number(element)?;
            Ok(Some(Kind::Array(number)))
        }
        (Named::Query { number, site: _ }, _) => Ok(Some(Kind::Rows(number))),
        (_, _) => Ok(None),
    }
}

// What an expression itself allocates.
fn add(
    found: &mut Items<Allocation>,
    checked: &Checked,
    method: u16,
    id: u32,
    token: u32,
) -> Result<(), AllocError>
    ensures { OnOk result (found.new ≡ found.old ++ specs.one_at checked.now.facts method id token) }
{
    match kind_of(named_at(&checked.facts, id), type_at(&checked.facts, id))? {
        None => Ok(()),
        Some(kind) => found.push(Allocation {
            kind,
            token,
            method,
        }),
    }
}

// An outer expression before an inner one, as they are numbered.
#[cycle(expression)]
#[tactic(auto, using(crate::proofs::AllocationForms::expressions))]
fn in_expression(
    found: &mut Items<Allocation>,
    checked: &Checked,
    method: u16,
    e: &Expr,
) -> Result<(), AllocError>
    ensures { OnOk result (found.new ≡ found.old ++ specs.in_expression checked.now.facts method e.now) }
{
    add(found, checked, method, e.id, e.token)?;
    match &e.form {
        ExprForm::Group(inner) => in_expression(found, checked, method, inner.get()),
        ExprForm::Field { of, name: _ } => in_expression(found, checked, method, of.get()),
        ExprForm::Index { of, index } => {
            in_expression(found, checked, method, of.get())?;
            in_expression(found, checked, method, index.get())
        }
        ExprForm::Call { of, name: _, args } => {
            in_receiver(found, checked, method, of)?;
            in_expressions(found, checked, method, args.as_slice())
        }
        ExprForm::NewArray { base: _, length } => {
            in_expression(found, checked, method, length.get())
        }
        ExprForm::Prefix { sign: _, value } => in_expression(found, checked, method, value.get()),
        ExprForm::Binary {
            sign: _,
            sign_token: _,
            left,
            right,
        } => {
            in_expression(found, checked, method, left.get())?;
            in_expression(found, checked, method, right.get())
        }
        _ => Ok(()),
    }
}

#[cycle(expression)]
fn in_receiver(
    found: &mut Items<Allocation>,
    checked: &Checked,
    method: u16,
    of: &Option<Boxed<Expr>>,
) -> Result<(), AllocError>
    ensures { OnOk result (found.new ≡ found.old ++ specs.if_any (option_map (specs.in_expression checked.now.facts method) of.now)) }
{
    match of {
        None => Ok(()),
        Some(of) => in_expression(found, checked, method, of.get()),
    }
}

#[cycle(expression)]
fn in_expressions(
    found: &mut Items<Allocation>,
    checked: &Checked,
    method: u16,
    es: &[Expr],
) -> Result<(), AllocError>
    ensures { OnOk result (found.new ≡ found.old ++ specs.all_of (map (specs.in_expression checked.now.facts method) es.now)) }
{
    for e in es {
        in_expression(found, checked, method, e)?;
    }
    Ok(())
}

fn in_value(
    found: &mut Items<Allocation>,
    checked: &Checked,
    method: u16,
    value: &Option<Expr>,
) -> Result<(), AllocError>
    ensures { OnOk result (found.new ≡ found.old ++ specs.if_any (option_map (specs.in_expression checked.now.facts method) value.now)) }
{
    match value {
        None => Ok(()),
        Some(e) => in_expression(found, checked, method, e),
    }
}

/// Adds those of a statement of this method.
#[cycle(statement)]
#[tactic(auto, using(crate::proofs::AllocationForms::statements))]
pub fn in_statement(
    found: &mut Items<Allocation>,
    checked: &Checked,
    method: u16,
    s: &Stmt,
) -> Result<(), AllocError>
    ensures { OnOk result (found.new ≡ found.old ++ specs.in_statement checked.now.facts method s.now) }
{
    match &s.form {
        StmtForm::Block(items) => in_statements(found, checked, method, items.as_slice()),
        StmtForm::Local {
            ty: _,
            name: _,
            value,
        } => in_expression(found, checked, method, value),
        StmtForm::Assign { place, value } => {
            in_expression(found, checked, method, place)?;
            in_expression(found, checked, method, value)
        }
        StmtForm::Compound {
            name: _,
            sign: _,
            value,
        } => in_expression(found, checked, method, value),
        StmtForm::Call(value) => in_expression(found, checked, method, value),
        StmtForm::If { test, yes, no } => {
            in_expression(found, checked, method, test)?;
            in_statement(found, checked, method, yes.get())?;
            in_other(found, checked, method, no)
        }
        StmtForm::While { test, body } => {
            in_expression(found, checked, method, test)?;
            in_statement(found, checked, method, body.get())
        }
        StmtForm::For {
            first,
            test,
            last,
            body,
        } => {
            in_statement(found, checked, method, first.get())?;
            in_expression(found, checked, method, test)?;
            in_statement(found, checked, method, last.get())?;
            in_statement(found, checked, method, body.get())
        }
        StmtForm::Return(value) => in_value(found, checked, method, value),
        StmtForm::Print(value) => in_expression(found, checked, method, value),
        StmtForm::Empty => Ok(()),
        StmtForm::Up(_) => Ok(()),
        StmtForm::Down(_) => Ok(()),
    }
}

#[cycle(statement)]
fn in_other(
    found: &mut Items<Allocation>,
    checked: &Checked,
    method: u16,
    no: &Option<Boxed<Stmt>>,
) -> Result<(), AllocError>
    ensures { OnOk result (found.new ≡ found.old ++ specs.if_any (option_map (specs.in_statement checked.now.facts method) no.now)) }
{
    match no {
        None => Ok(()),
        Some(no) => in_statement(found, checked, method, no.get()),
    }
}

#[cycle(statement)]
fn in_statements(
    found: &mut Items<Allocation>,
    checked: &Checked,
    method: u16,
    items: &[Stmt],
) -> Result<(), AllocError>
    ensures { OnOk result (found.new ≡ found.old ++ specs.all_of (map (specs.in_statement checked.now.facts method) items.now)) }
{
    for item in items {
        in_statement(found, checked, method, item)?;
    }
    Ok(())
}
