//! The rules of a method.
ghost use Rattle.std.specs.Prelude.{◌≡◌, IfOk, OnOk};
ghost use Rattle.px_type_rules.specs.Breaches.{after};
ghost use Rattle.px_types.specs.Methods as methods;
ghost use Rattle.px_types.specs.Scopes as scopes;

use crate::context::Context;
use crate::locals::Locals;
use crate::members::{check_base, result_type, type_of};
use crate::table::Table;
use px_tree::{Method, Param, TypeName};
use px_type_rules::Report;
use std::alloc::{AllocError, Global};

const MAX_TOKENS: u32 = 10000;

impl Context {
    /// Judges a method of the class.
    #[tactic(auto, using(crate::proofs::Notes::after_append))]
    pub fn method(
        &mut self,
        alloc: Global,
        report: &mut Report,
        m: &Method,
    ) -> Result<(), AllocError>
        ensures classes { self.new.classes ≡ self.old.classes }
        ensures this { self.new.this ≡ self.old.this }
        ensures notes { OnOk result (report.new ≡ after report.old (methods.method_notes self.old.classes self.old.this m.now)) }
    {
        self.result = result_type(&self.classes.numbers, &m.gives);
        check_result(report, &self.classes.numbers, &m.gives);
        let mut locals = self.params(alloc, report, m.params.as_slice())?;
        let completes = self.statement(alloc, &mut locals, report, &m.body, true)?;
        report.breach_if(!self.result.is_void() && completes, m.name.token, 9);
        check_length(report, m.from, m.to);
        Ok(())
    }

    #[tactic(auto, using(crate::proofs::Notes::after_append))]
    fn params(
        &self,
        alloc: Global,
        report: &mut Report,
        params: &[Param],
    ) -> Result<Locals, AllocError>
        ensures locals { IfOk result (λ locals. locals ≡ methods.params_of self.now.classes.numbers params.now) }
        ensures notes { OnOk result (report.new ≡ after report.old (methods.param_notes self.now.classes.numbers scopes.no_locals params.now)) }
    {
        let mut locals = Locals::new(alloc);
        for param in params {
            check_base(report, &self.classes.numbers, &param.ty.base);
            let ty = type_of(&self.classes.numbers, &param.ty);
            locals.declare(alloc, report, &param.name, ty)?;
        }
        locals.use_all();
        Ok(locals)
    }
}

fn check_result(report: &mut Report, numbers: &Table<usize>, gives: &Option<TypeName>)
    ensures { report.new ≡ after report.old (methods.result_notes numbers.now gives.now) }
{
    match gives {
        Some(ty) => check_base(report, numbers, &ty.base),
        None => {}
    }
}

// A method from one token to another.
fn check_length(report: &mut Report, from: u32, to: u32)
    ensures { report.new ≡ after report.old (methods.too_long from to) }
{
    if to.saturating_sub(from) >= MAX_TOKENS {
        report.breach(from + MAX_TOKENS, 17);
    }
}
