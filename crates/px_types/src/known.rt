//! What is known of expressions.
ghost use Rattle.std.specs.Prelude.{◌≡◌, ◌++◌, map, IfOk, OnOk};
ghost use Rattle.px_types.specs.Database.{first_written};
ghost use Rattle.px_types.specs.Facts as facts;
ghost use Rattle.px_types.specs.Known as specs;
ghost use Rattle.px_types.specs.Known.{known, known_form, all_nodes, argument_nodes};

use crate::database::{Verb, asked, asked_operation, first_literal};
use crate::home::Home;
use crate::lookup::{database_fact, new_array_fact, typed_only, verb_fact};
use crate::members::base_type;
use crate::node::{Node, add_fact, fact_only};
use crate::scope::Scope;
use px_facts::{Fact, Named, Operation, Ty};
use px_tree::{Expr, ExprForm};
use px_type_rules::{group_of, group_type, literal_type, prefix_type};
use sqlite_items::Items;
use std::alloc::{AllocError, Global};

// Stands for what isn't known yet.
const UNKNOWN: Fact = Fact {
    ty: Ty::Unknown,
    named: Named::Nothing,
};

impl Home {
    /// The type of an expression. Adds what is known of it and of those in it.
    #[cycle(known)]
    #[tactic(auto, using(crate::proofs::KnownForms::forms))]
    pub fn expression(
        &self,
        alloc: Global,
        scope: &Scope,
        nodes: &mut Items<Node>,
        e: &Expr,
    ) -> Result<Ty, AllocError>
        ensures ty { IfOk result (λ ty. ty ≡ (known self.now e.now scope.now).own.fact.ty) }
        ensures nodes { OnOk result (nodes.new ≡ nodes.old ++ all_nodes (known self.now e.now scope.now)) }
    {
        let place = nodes.len();
        nodes.push(fact_only(UNKNOWN))?;
        let own = self.form(alloc, scope, nodes, &e.form)?;
        let ty = own.fact.ty;
        nodes.set(place, own);
        Ok(ty)
    }

    // Adds what is known of the expressions in it.
    #[cycle(known)]
    #[tactic(auto, using(crate::proofs::KnownForms::forms))]
    fn form(
        &self,
        alloc: Global,
        scope: &Scope,
        nodes: &mut Items<Node>,
        form: &ExprForm,
    ) -> Result<Node, AllocError>
        ensures own { IfOk result (λ own. own ≡ (known_form self.now form.now scope.now).own) }
        ensures nodes { OnOk result (nodes.new ≡ nodes.old ++ (known_form self.now form.now scope.now).inner) }
    {
        match form {
            ExprForm::Number { digits: _, long } => Ok(fact_only(typed_only(literal_type(*long)))),
            ExprForm::Str(_) => Ok(fact_only(typed_only(Ty::Text))),
            ExprForm::True | ExprForm::False => Ok(fact_only(typed_only(Ty::Boolean))),
            ExprForm::Null => Ok(fact_only(typed_only(Ty::Null))),
            ExprForm::This => Ok(fact_only(typed_only(Ty::Object(self.this)))),
            ExprForm::Name(name) => {
                let fact = self.variable_fact(scope, name.bytes.as_slice())?;
                Ok(fact_only(fact))
            }
            ExprForm::Group(inner) => {
                let ty = self.expression(alloc, scope, nodes, inner.get())?;
                Ok(fact_only(typed_only(ty)))
            }
            ExprForm::Field { of, name } => {
                let of = self.expression(alloc, scope, nodes, of.get())?;
                let fact = self.field_fact(of, name.bytes.as_slice())?;
                Ok(fact_only(fact))
            }
            ExprForm::Index { of, index } => {
                let of = self.expression(alloc, scope, nodes, of.get())?;
                self.expression(alloc, scope, nodes, index.get())?;
                Ok(fact_only(typed_only(of.indexed())))
            }
            ExprForm::Call { of, name, args } => match of {
                Some(of) => match asked(of.get(), name) {
                    Some(verb) => {
                        add_fact(nodes, database_fact())?;
                        self.arguments(alloc, scope, nodes, args.as_slice())?;
                        self.database_node(alloc, verb, args.as_slice())
                    }
                    None => {
                        let of = self.expression(alloc, scope, nodes, of.get())?;
                        self.arguments(alloc, scope, nodes, args.as_slice())?;
                        self.method_node(of, name.bytes.as_slice())
                    }
                },
                None => {
                    self.arguments(alloc, scope, nodes, args.as_slice())?;
                    self.method_node(Ty::Object(self.this), name.bytes.as_slice())
                }
            },
            ExprForm::NewObject(name) => {
                let fact = self.new_fact(name.bytes.as_slice())?;
                Ok(fact_only(fact))
            }
            ExprForm::NewArray { base, length } => {
                self.expression(alloc, scope, nodes, length.get())?;
                let element = base_type(&self.classes.numbers, base);
                Ok(fact_only(new_array_fact(element.array())))
            }
            ExprForm::Prefix { sign, value } => {
                let ty = self.expression(alloc, scope, nodes, value.get())?;
                Ok(fact_only(typed_only(prefix_type(*sign, ty))))
            }
            ExprForm::Binary {
                sign,
                sign_token: _,
                left,
                right,
            } => {
                let left = self.expression(alloc, scope, nodes, left.get())?;
                let right = self.expression(alloc, scope, nodes, right.get())?;
                Ok(fact_only(typed_only(group_type(group_of(*sign), left, right))))
            }
        }
    }

    #[cycle(known)]
    #[tactic(auto, using(crate::proofs::KnownForms::forms))]
    fn arguments(
        &self,
        alloc: Global,
        scope: &Scope,
        nodes: &mut Items<Node>,
        args: &[Expr],
    ) -> Result<(), AllocError>
        ensures { OnOk result (nodes.new ≡ nodes.old ++ argument_nodes scope.now (map (known self.now) args.now)) }
    {
        for arg in args {
            self.expression(alloc, scope, nodes, arg)?;
        }
        Ok(())
    }

    fn method_node(&self, of: Ty, name: &[u8]) -> Result<Node, AllocError>
        ensures { IfOk result (λ own. own ≡ specs.fact_only (facts.method_fact self.now of name.now)) }
    {
        let fact = self.method_fact(of, name)?;
        Ok(fact_only(fact))
    }

    // A call of `Db`.
    fn database_node(&self, alloc: Global, verb: Verb, args: &[Expr]) -> Result<Node, AllocError>
        ensures { IfOk result (λ own. own ≡ specs.database_node self.now verb (first_written args.now)) }
    {
        let operation = self.operation(alloc, verb, args)?;
        Ok(Node {
            fact: verb_fact(verb),
            operation,
        })
    }

    // What a call of `Db` asks for.
    fn operation(
        &self,
        alloc: Global,
        verb: Verb,
        args: &[Expr],
    ) -> Result<Option<Operation>, AllocError>
        ensures { IfOk result (λ operation. operation ≡ specs.operation_in self.now.classes.library.schema verb (first_written args.now)) }
    {
        match first_literal(args) {
            Some(text) => asked_operation(alloc, &self.classes.library.get().schema, verb, text),
            None => Ok(None),
        }
    }
}
