//! The types of expressions, and the rules that they break.
ghost use Rattle.std.specs.Prelude.{◌≡◌, map, IfOk, OnOk};
ghost use Rattle.px_type_rules.specs.Breaches.{after};
ghost use Rattle.px_types.specs.Database as calls;
ghost use Rattle.px_types.specs.Scopes as scopes;
ghost use Rattle.px_types.specs.Expressions as expressions;
ghost use Rattle.px_types.specs.Expressions.{typed, typed_form, of_type};

use crate::context::Context;
use crate::database::{Verb, all_fit, asked, asked_operation, literal, verb_type, wanted_at};
use crate::locals::Locals;
use crate::members::{base_type, check_access, check_base, check_class, class_type};
use px_facts::{Ty, fits};
use px_tree::{Expr, ExprForm, Name, Sign};
use px_type_rules::{
    Report, compares_texts, group_of, group_type, is_in_range, is_minus, literal_type,
    operands_fit, prefix_fits, prefix_type,
};
use px_value::MAX_TEXT;
use sqlite_items::Items;
use std::alloc::{AllocError, Global};

impl Context {
    /// The type of an expression. `negated` tells whether it stands right after a minus.
    #[cycle(expression)]
    #[tactic(auto, using(crate::proofs::Forms::forms, crate::proofs::Notes::after_append))]
    pub fn expression(
        &self,
        alloc: Global,
        locals: &Locals,
        report: &mut Report,
        e: &Expr,
        negated: bool,
    ) -> Result<Ty, AllocError>
        ensures ty { IfOk result (λ ty. ty ≡ (typed self.now e.now negated locals.now).ty) }
        ensures notes { OnOk result (report.new ≡ after report.old (typed self.now e.now negated locals.now).notes) }
    {
        self.form(alloc, locals, report, &e.form, e.token, negated)
    }

    #[cycle(expression)]
    #[tactic(auto, using(crate::proofs::Forms::forms, crate::proofs::Notes::after_append))]
    fn form(
        &self,
        alloc: Global,
        locals: &Locals,
        report: &mut Report,
        form: &ExprForm,
        token: u32,
        negated: bool,
    ) -> Result<Ty, AllocError>
        ensures ty { IfOk result (λ ty. ty ≡ (typed_form self.now form.now token negated locals.now).ty) }
        ensures notes { OnOk result (report.new ≡ after report.old (typed_form self.now form.now token negated locals.now).notes) }
    {
        match form {
            ExprForm::Number { digits, long } => Ok(number(
                report,
                digits.as_slice(),
                *long,
                token,
                negated,
            )),
            ExprForm::Str(bytes) => Ok(text(report, bytes.as_slice(), token)),
            ExprForm::True | ExprForm::False => Ok(Ty::Boolean),
            ExprForm::Null => Ok(Ty::Null),
            ExprForm::This => Ok(Ty::Object(self.this)),
            ExprForm::Name(name) => Ok(self.name(locals, report, name)),
            ExprForm::Group(inner) => self.expression(alloc, locals, report, inner.get(), false),
            ExprForm::Field { of, name } => {
                let of = self.expression(alloc, locals, report, of.get(), negated)?;
                Ok(self.field(report, of, name))
            }
            ExprForm::Index { of, index } => {
                let of = self.expression(alloc, locals, report, of.get(), negated)?;
                let at = self.expression(alloc, locals, report, index.get(), false)?;
                Ok(indexed(report, token, of, at))
            }
            ExprForm::Call { of, name, args } => match of {
                Some(of) => match asked(of.get(), name) {
                    Some(verb) => {
                        self.database_call(alloc, locals, report, token, verb, args.as_slice())
                    }
                    None => {
                        let of = self.expression(alloc, locals, report, of.get(), negated)?;
                        self.call(alloc, locals, report, token, of, name, args.as_slice())
                    }
                },
                None => {
                    let of = Ty::Object(self.this);
                    self.call(alloc, locals, report, token, of, name, args.as_slice())
                }
            },
            ExprForm::NewObject(name) => Ok(self.new_object(report, token, name)),
            ExprForm::NewArray { base, length } => {
                report.created(token);
                check_base(report, &self.classes.numbers, base);
                let length = self.expression(alloc, locals, report, length.get(), false)?;
                report.breach_if(!fits(Ty::Int, length), token, 6);
                Ok(base_type(&self.classes.numbers, base).array())
            }
            ExprForm::Prefix { sign, value } => {
                let ty = self.expression(alloc, locals, report, value.get(), is_minus(*sign))?;
                Ok(prefixed(report, token, *sign, ty))
            }
            ExprForm::Binary {
                sign,
                sign_token,
                left,
                right,
            } => {
                let left = self.expression(alloc, locals, report, left.get(), false)?;
                let right = self.expression(alloc, locals, report, right.get(), false)?;
                Ok(binary(report, token, *sign, *sign_token, left, right))
            }
        }
    }

    // A call of a method of this type.
    #[cycle(expression)]
    #[tactic(auto, using(crate::proofs::Forms::forms, crate::proofs::Notes::after_append))]
    fn call(
        &self,
        alloc: Global,
        locals: &Locals,
        report: &mut Report,
        token: u32,
        of: Ty,
        name: &Name,
        args: &[Expr],
    ) -> Result<Ty, AllocError>
        ensures ty { IfOk result (λ ty. ty ≡ (expressions.call self.now token (of_type of) name.now (map (typed self.now) args.now) locals.now).ty) }
        ensures notes { OnOk result (report.new ≡ after report.old (expressions.call self.now token (of_type of) name.now (map (typed self.now) args.now) locals.now).notes) }
    {
        match self.classes.method(of, name.bytes.as_slice()) {
            Some(method) => {
                let fitting = method.params.len() == args.len();
                check_access(report, of, self.this, method.access, name);
                report.breach_if(!fitting, name.token, 5);
                if fitting {
                    self.arguments(alloc, locals, report, token, method.params.as_slice(), args)?;
                } else {
                    self.arguments(alloc, locals, report, token, &[], args)?;
                }
                Ok(method.result)
            }
            None => {
                report.breach_if(!of.is_unknown(), name.token, 4);
                self.arguments(alloc, locals, report, token, &[], args)?;
                Ok(Ty::Unknown)
            }
        }
    }

    // A call of `Db`, which is this token.
    #[cycle(expression)]
    #[tactic(auto, using(crate::proofs::Forms::forms, crate::proofs::Notes::after_append))]
    fn database_call(
        &self,
        alloc: Global,
        locals: &Locals,
        report: &mut Report,
        database: u32,
        verb: Verb,
        args: &[Expr],
    ) -> Result<Ty, AllocError>
        ensures ty { IfOk result (λ ty. ty ≡ (expressions.database_call self.now database verb (map (typed self.now) args.now) locals.now).ty) }
        ensures notes { OnOk result (report.new ≡ after report.old (expressions.database_call self.now database verb (map (typed self.now) args.now) locals.now).notes) }
    {
        report.created(database);
        self.database_arguments(alloc, locals, report, database, verb, args)?;
        Ok(verb_type(verb))
    }

    #[cycle(expression)]
    #[tactic(auto, using(crate::proofs::Forms::forms, crate::proofs::Notes::after_append))]
    fn database_arguments(
        &self,
        alloc: Global,
        locals: &Locals,
        report: &mut Report,
        database: u32,
        verb: Verb,
        args: &[Expr],
    ) -> Result<(), AllocError>
        ensures { OnOk result (report.new ≡ after report.old (expressions.database_notes self.now.classes.library.schema database verb (map (typed self.now) args.now) locals.now)) }
    {
        match args {
            [text, params @ ..] => match literal(text) {
                Some(bytes) => {
                    let types = self.arguments(alloc, locals, report, database, &[], params)?;
                    let token = text.token;
                    self.text(
                        alloc,
                        report,
                        database,
                        token,
                        verb,
                        bytes,
                        types.as_slice(),
                    )
                }
                None => {
                    self.arguments(alloc, locals, report, database, &[], args)?;
                    report.breach(database, 12);
                    Ok(())
                }
            },
            [] => {
                report.breach(database, 12);
                Ok(())
            }
        }
    }

    // The text at a token, with values of these types behind it.
    fn text(
        &self,
        alloc: Global,
        report: &mut Report,
        database: u32,
        token: u32,
        verb: Verb,
        text: &[u8],
        types: &[Ty],
    ) -> Result<(), AllocError>
        ensures { OnOk result (report.new ≡ after report.old (calls.text_notes database token (calls.asked_operation self.now.classes.library.schema verb text.now) types.now)) }
    {
        match asked_operation(alloc, &self.classes.library.get().schema, verb, text)? {
            Some(operation) => {
                let fitting = all_fit(operation.params.as_slice(), types);
                report.breach_if(!fitting, database, 13);
            }
            None => report.breach(token, 12),
        }
        Ok(())
    }

    // The types of arguments. Where no type is wanted, any argument fits.
    #[cycle(expression)]
    #[tactic(auto, using(crate::proofs::Forms::forms, crate::proofs::Notes::after_append))]
    fn arguments(
        &self,
        alloc: Global,
        locals: &Locals,
        report: &mut Report,
        token: u32,
        wanted: &[Ty],
        args: &[Expr],
    ) -> Result<Items<Ty>, AllocError>
        ensures types { IfOk result (λ types. types ≡ expressions.types_of locals.now (map (typed self.now) args.now)) }
        ensures notes { OnOk result (report.new ≡ after report.old (expressions.arguments token wanted.now 0 locals.now (map (typed self.now) args.now))) }
    {
        let mut types = Items::new(alloc);
        let mut place: usize = 0;
        for arg in args {
            let ty = self.expression(alloc, locals, report, arg, false)?;
            argument(report, token, wanted_at(wanted, place), ty);
            types.push(ty)?;
            place += 1;
        }
        Ok(types)
    }

    #[tactic(auto, using(crate::proofs::Notes::after_append))]
    fn name(&self, locals: &Locals, report: &mut Report, name: &Name) -> Ty
        ensures ty { result ≡ (expressions.variable name.now (scopes.variable_type self.now locals.now name.now.bytes)).ty }
        ensures notes { report.new ≡ after report.old (expressions.variable name.now (scopes.variable_type self.now locals.now name.now.bytes)).notes }
    {
        let found = self.variable(locals, name.bytes.as_slice());
        report.breach_if(found.is_none(), name.token, 3);
        or_unknown(found)
    }

    // The type of a variable.
    fn variable(&self, locals: &Locals, name: &[u8]) -> Option<Ty>
        ensures { result ≡ scopes.variable_type self.now locals.now name.now }
    {
        if locals.has(name) {
            locals.find(name)
        } else {
            self.own_field(name)
        }
    }

    fn own_field(&self, name: &[u8]) -> Option<Ty>
        ensures { result ≡ scopes.own_field self.now name.now }
    {
        match self.classes.field(Ty::Object(self.this), name) {
            Some(field) => Some(field.ty),
            None => None,
        }
    }

    /// A field of a value of this type.
    #[tactic(auto, using(crate::proofs::Notes::after_append))]
    pub fn field(&self, report: &mut Report, of: Ty, name: &Name) -> Ty
        ensures ty { result ≡ (expressions.field self.now (of_type of) name.now).ty }
        ensures notes { report.new ≡ after report.old (expressions.field self.now (of_type of) name.now).notes }
    {
        match self.classes.field(of, name.bytes.as_slice()) {
            Some(field) => {
                check_access(report, of, self.this, field.access, name);
                field.ty
            }
            None => {
                report.breach_if(!of.is_unknown(), name.token, 4);
                Ty::Unknown
            }
        }
    }

    #[tactic(auto, using(crate::proofs::Notes::after_append))]
    fn new_object(&self, report: &mut Report, token: u32, name: &Name) -> Ty
        ensures ty { result ≡ (expressions.new_object self.now token name.now).ty }
        ensures notes { report.new ≡ after report.old (expressions.new_object self.now token name.now).notes }
    {
        report.created(token);
        check_class(report, &self.classes.numbers, name);
        class_type(&self.classes.numbers, name.bytes.as_slice())
    }
}

fn number(report: &mut Report, digits: &[u8], long: bool, token: u32, negated: bool) -> Ty
    ensures ty { result ≡ (expressions.number digits.now long token negated).ty }
    ensures notes { report.new ≡ after report.old (expressions.number digits.now long token negated).notes }
{
    report.breach_if(!is_in_range(digits, long, negated), token, 11);
    literal_type(long)
}

fn text(report: &mut Report, bytes: &[u8], token: u32) -> Ty
    ensures ty { result ≡ (expressions.text bytes.now token).ty }
    ensures notes { report.new ≡ after report.old (expressions.text bytes.now token).notes }
{
    report.breach_if(bytes.len() > MAX_TEXT, token, 17);
    Ty::Text
}

pub fn or_unknown(found: Option<Ty>) -> Ty
    ensures { result ≡ scopes.or_unknown found }
{
    match found {
        Some(ty) => ty,
        None => Ty::Unknown,
    }
}

// An argument, where a type is wanted.
fn argument(report: &mut Report, token: u32, wanted: Ty, ty: Ty)
    ensures { report.new ≡ after report.old (expressions.misfit (expressions.argument_fits wanted ty) token) }
{
    let fitting = wanted.is_unknown() || fits(wanted, ty);
    report.breach_if(!fitting, token, 6);
}

fn indexed(report: &mut Report, token: u32, of: Ty, at: Ty) -> Ty
    ensures ty { result ≡ (expressions.index token (of_type of) (of_type at)).ty }
    ensures notes { report.new ≡ after report.old (expressions.index token (of_type of) (of_type at)).notes }
{
    let fitting = (of.is_unknown() || of.is_array()) && fits(Ty::Int, at);
    report.breach_if(!fitting, token, 6);
    of.indexed()
}

fn prefixed(report: &mut Report, token: u32, sign: Sign, ty: Ty) -> Ty
    ensures ty { result ≡ (expressions.prefixed token sign (of_type ty)).ty }
    ensures notes { report.new ≡ after report.old (expressions.prefixed token sign (of_type ty)).notes }
{
    report.breach_if(!prefix_fits(sign, ty), token, 6);
    prefix_type(sign, ty)
}

#[tactic(auto, using(crate::proofs::Notes::after_append))]
fn binary(report: &mut Report, token: u32, sign: Sign, sign_token: u32, left: Ty, right: Ty) -> Ty
    ensures ty { result ≡ (expressions.binary token sign sign_token (of_type left) (of_type right)).ty }
    ensures notes { report.new ≡ after report.old (expressions.binary token sign sign_token (of_type left) (of_type right)).notes }
{
    let group = group_of(sign);
    report.breach_if(!operands_fit(group, left, right), token, 6);
    report.breach_if(compares_texts(group, left, right), sign_token, 7);
    group_type(group, left, right)
}
