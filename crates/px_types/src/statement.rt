//! The rules of statements.
ghost use Rattle.std.specs.Prelude.{◌≡◌, true, false, map, IfOk, OnOk};
ghost use Rattle.px_type_rules.specs.Breaches.{after};
ghost use Rattle.px_types.specs.Expressions.{typed, of_type};
ghost use Rattle.std.specs.Option.{option_map};
ghost use Rattle.px_types.specs.Scopes as scopes;
ghost use Rattle.px_types.specs.Statements as statements;
ghost use Rattle.px_types.specs.Statements.{judged, judged_form};

use crate::context::Context;
use crate::expression::or_unknown;
use crate::locals::Locals;
use crate::members::{check_base, type_of};
use px_facts::{Ty, fits};
use px_tree::{Expr, ExprForm, Name, Sign, Stmt, StmtForm, TypeName};
use px_type_rules::{Report, compound_fits, group_of};
use sqlite_items::Boxed;
use std::alloc::{AllocError, Global};

impl Context {
    /// Whether a statement can complete normally. `reached` tells whether the one before it in its block can.
    #[cycle(statement)]
    #[tactic(auto, using(crate::proofs::StatementForms::forms, crate::proofs::Notes::after_append))]
    pub fn statement(
        &self,
        alloc: Global,
        locals: &mut Locals,
        report: &mut Report,
        s: &Stmt,
        reached: bool,
    ) -> Result<bool, AllocError>
        ensures completes { IfOk result (λ completes. completes ≡ (judged self.now s.now reached locals.old).completes) }
        ensures locals { OnOk result (locals.new ≡ (judged self.now s.now reached locals.old).locals) }
        ensures notes { OnOk result (report.new ≡ after report.old (judged self.now s.now reached locals.old).notes) }
    {
        report.breach_if(!reached, s.token, 8);
        self.statement_form(alloc, locals, report, &s.form, s.token)
    }

    #[cycle(statement)]
    #[tactic(auto, using(crate::proofs::StatementForms::forms, crate::proofs::Notes::after_append))]
    fn statement_form(
        &self,
        alloc: Global,
        locals: &mut Locals,
        report: &mut Report,
        form: &StmtForm,
        token: u32,
    ) -> Result<bool, AllocError>
        ensures completes { IfOk result (λ completes. completes ≡ (judged_form self.now form.now token locals.old).completes) }
        ensures locals { OnOk result (locals.new ≡ (judged_form self.now form.now token locals.old).locals) }
        ensures notes { OnOk result (report.new ≡ after report.old (judged_form self.now form.now token locals.old).notes) }
    {
        match form {
            StmtForm::Block(items) => self.block(alloc, locals, report, items.as_slice()),
            StmtForm::Empty => Ok(true),
            StmtForm::Local { ty, name, value } => {
                self.local(alloc, locals, report, token, ty, name, value)?;
                Ok(true)
            }
            StmtForm::Assign { place, value } => {
                self.assign(alloc, locals, report, token, place, value)?;
                Ok(true)
            }
            StmtForm::Compound { name, sign, value } => {
                self.compound(alloc, locals, report, token, name, *sign, value)?;
                Ok(true)
            }
            StmtForm::Up(name) | StmtForm::Down(name) => {
                step(locals, report, token, name);
                Ok(true)
            }
            StmtForm::Call(call) => {
                self.expression(alloc, locals, report, call, false)?;
                Ok(true)
            }
            StmtForm::If { test, yes, no } => {
                self.value(alloc, locals, report, token, Ty::Boolean, test)?;
                let completes = self.statement(alloc, locals, report, yes.get(), true)?;
                let either = self.otherwise(alloc, locals, report, completes, no)?;
                Ok(either)
            }
            StmtForm::While { test, body } => {
                self.value(alloc, locals, report, token, Ty::Boolean, test)?;
                self.statement(alloc, locals, report, body.get(), true)?;
                Ok(true)
            }
            StmtForm::For {
                first,
                test,
                last,
                body,
            } => {
                let count = locals.table.names.len();
                let usable = locals.usable;
                self.statement(alloc, locals, report, first.get(), true)?;
                self.value(alloc, locals, report, token, Ty::Boolean, test)?;
                self.statement(alloc, locals, report, last.get(), true)?;
                self.statement(alloc, locals, report, body.get(), true)?;
                locals.truncate(count, usable);
                Ok(true)
            }
            StmtForm::Return(value) => {
                self.returned(alloc, locals, report, token, value)?;
                Ok(false)
            }
            StmtForm::Print(value) => {
                let ty = self.expression(alloc, locals, report, value, false)?;
                report.breach_if(!ty.is_printable(), token, 6);
                Ok(true)
            }
        }
    }

    #[cycle(statement)]
    #[tactic(auto, using(crate::proofs::StatementForms::forms, crate::proofs::Notes::after_append))]
    fn block(
        &self,
        alloc: Global,
        locals: &mut Locals,
        report: &mut Report,
        items: &[Stmt],
    ) -> Result<bool, AllocError>
        ensures completes { IfOk result (λ completes. completes ≡ (statements.block true locals.old (map (judged self.now) items.now)).completes) }
        ensures locals { OnOk result (locals.new ≡ (statements.closed locals.old (statements.block true locals.old (map (judged self.now) items.now))).locals) }
        ensures notes { OnOk result (report.new ≡ after report.old (statements.block true locals.old (map (judged self.now) items.now)).notes) }
    {
        let count = locals.table.names.len();
        let usable = locals.usable;
        let mut completes = true;
        for item in items {
            completes = self.statement(alloc, locals, report, item, completes)?;
        }
        locals.truncate(count, usable);
        Ok(completes)
    }

    // The `else` of an `if`, whose other branch can complete or can't.
    #[cycle(statement)]
    #[tactic(auto, using(crate::proofs::StatementForms::forms, crate::proofs::Notes::after_append))]
    fn otherwise(
        &self,
        alloc: Global,
        locals: &mut Locals,
        report: &mut Report,
        completes: bool,
        no: &Option<Boxed<Stmt>>,
    ) -> Result<bool, AllocError>
        ensures completes { IfOk result (λ either. either ≡ (statements.otherwise completes locals.old (option_map (judged self.now) no.now)).completes) }
        ensures locals { OnOk result (locals.new ≡ (statements.otherwise completes locals.old (option_map (judged self.now) no.now)).locals) }
        ensures notes { OnOk result (report.new ≡ after report.old (statements.otherwise completes locals.old (option_map (judged self.now) no.now)).notes) }
    {
        match no {
            Some(no) => {
                let other = self.statement(alloc, locals, report, no.get(), true)?;
                Ok(completes || other)
            }
            None => Ok(true),
        }
    }

    #[tactic(auto, using(crate::proofs::Notes::after_append))]
    fn local(
        &self,
        alloc: Global,
        locals: &mut Locals,
        report: &mut Report,
        token: u32,
        ty: &TypeName,
        name: &Name,
        value: &Expr,
    ) -> Result<(), AllocError>
        ensures locals { OnOk result (locals.new ≡ (statements.local self.now token ty.now name.now value.now locals.old).locals) }
        ensures notes { OnOk result (report.new ≡ after report.old (statements.local self.now token ty.now name.now value.now locals.old).notes) }
    {
        let declared = type_of(&self.classes.numbers, ty);
        check_base(report, &self.classes.numbers, &ty.base);
        locals.declare(alloc, report, name, declared)?;
        self.value(alloc, locals, report, token, declared, value)?;
        locals.use_all();
        Ok(())
    }

    // A value that has to fit a type.
    #[tactic(auto, using(crate::proofs::Notes::after_append))]
    fn value(
        &self,
        alloc: Global,
        locals: &Locals,
        report: &mut Report,
        token: u32,
        to: Ty,
        value: &Expr,
    ) -> Result<(), AllocError>
        ensures { OnOk result (report.new ≡ after report.old (statements.value_notes token to (typed self.now value.now false locals.now))) }
    {
        let from = self.expression(alloc, locals, report, value, false)?;
        report.breach_if(!fits(to, from), token, 6);
        Ok(())
    }

    #[tactic(auto, using(crate::proofs::Notes::after_append))]
    fn assign(
        &self,
        alloc: Global,
        locals: &Locals,
        report: &mut Report,
        token: u32,
        place: &Expr,
        value: &Expr,
    ) -> Result<(), AllocError>
        ensures { OnOk result (report.new ≡ after report.old (statements.assign self.now token place.now value.now locals.now)) }
    {
        let to = self.place(alloc, locals, report, place)?;
        self.value(alloc, locals, report, token, to, value)
    }

    // What is assigned to.
    #[tactic(auto, using(crate::proofs::Notes::after_append))]
    fn place(
        &self,
        alloc: Global,
        locals: &Locals,
        report: &mut Report,
        place: &Expr,
    ) -> Result<Ty, AllocError>
        ensures ty { IfOk result (λ ty. ty ≡ (statements.assigned_place self.now place.now locals.now).ty) }
        ensures notes { OnOk result (report.new ≡ after report.old (statements.assigned_place self.now place.now locals.now).notes) }
    {
        match &place.form {
            ExprForm::Field { of, name } => {
                let of = self.expression(alloc, locals, report, of.get(), false)?;
                Ok(self.assigned_field(report, of, name))
            }
            _ => self.expression(alloc, locals, report, place, false),
        }
    }

    #[tactic(auto, using(crate::proofs::Notes::after_append))]
    fn assigned_field(&self, report: &mut Report, of: Ty, name: &Name) -> Ty
        ensures ty { result ≡ (statements.assigned_field self.now (of_type of) name.now).ty }
        ensures notes { report.new ≡ after report.old (statements.assigned_field self.now (of_type of) name.now).notes }
    {
        let ty = self.field(report, of, name);
        report.breach_if(of.is_array(), name.token, 4);
        if of.is_array() { Ty::Unknown } else { ty }
    }

    #[tactic(auto, using(crate::proofs::Notes::after_append))]
    fn compound(
        &self,
        alloc: Global,
        locals: &Locals,
        report: &mut Report,
        token: u32,
        name: &Name,
        sign: Sign,
        value: &Expr,
    ) -> Result<(), AllocError>
        ensures { OnOk result (report.new ≡ after report.old (statements.compound self.now token name.now sign value.now locals.now)) }
    {
        let to = changed(locals, report, name);
        let from = self.expression(alloc, locals, report, value, false)?;
        report.breach_if(!compound_fits(group_of(sign), to, from), token, 6);
        Ok(())
    }

    // A `return`.
    #[tactic(auto, using(crate::proofs::Notes::after_append))]
    fn returned(
        &self,
        alloc: Global,
        locals: &Locals,
        report: &mut Report,
        token: u32,
        value: &Option<Expr>,
    ) -> Result<(), AllocError>
        ensures { OnOk result (report.new ≡ after report.old (statements.return_notes self.now token value.now locals.now)) }
    {
        let void = self.result.is_void();
        match value {
            Some(value) => {
                let from = self.expression(alloc, locals, report, value, false)?;
                report.breach_if(void, token, 10);
                report.breach_if(!(void || fits(self.result, from)), token, 6);
            }
            None => report.breach_if(!void, token, 10),
        }
        Ok(())
    }
}

// `++` and `--`.
#[tactic(auto, using(crate::proofs::Notes::after_append))]
fn step(locals: &Locals, report: &mut Report, token: u32, name: &Name)
    ensures { report.new ≡ after report.old (statements.step token name.now locals.now) }
{
    let ty = changed(locals, report, name);
    report.breach_if(!(ty.is_unknown() || ty.is_number()), token, 6);
}

// The type of a local that is changed in place.
fn changed(locals: &Locals, report: &mut Report, name: &Name) -> Ty
    ensures ty { result ≡ scopes.or_unknown (scopes.local_type name.now.bytes locals.now) }
    ensures notes { report.new ≡ after report.old (statements.no_local name.now (scopes.local_type name.now.bytes locals.now)) }
{
    let found = locals.find(name.bytes.as_slice());
    report.breach_if(found.is_none(), name.token, 3);
    or_unknown(found)
}
