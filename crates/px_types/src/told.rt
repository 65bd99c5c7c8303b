//! What is known of statements.
ghost use Rattle.std.specs.Prelude.{◌≡◌, [], ◌++◌, map, OnOk};
ghost use Rattle.std.specs.Option.{option_map};
ghost use Rattle.px_types.specs.Slots.{closed};
ghost use Rattle.px_types.specs.Known.{known, all_nodes};
ghost use Rattle.px_types.specs.Told as specs;
ghost use Rattle.px_types.specs.Told.{told};

use crate::home::Home;
use crate::lookup::{changed_fact, local_fact};
use crate::members::type_of;
use crate::node::{Node, add_fact};
use crate::scope::Scope;
use px_facts::{Fact, Named, Ty};
use px_tree::{Expr, Name, Stmt, StmtForm, TypeName};
use sqlite_items::{Boxed, Items};
use std::alloc::{AllocError, Global};

// Of a statement that writes no local.
const NO_FACT: Fact = Fact {
    ty: Ty::Void,
    named: Named::Nothing,
};

impl Home {
    /// Adds what is known of a statement and of what is in it.
    #[cycle(told)]
    #[tactic(auto, using(crate::proofs::ToldForms::forms))]
    pub fn statement(
        &self,
        alloc: Global,
        scope: &mut Scope,
        nodes: &mut Items<Node>,
        s: &Stmt,
    ) -> Result<(), AllocError>
        ensures scope { OnOk result (scope.new ≡ (told self.now s.now scope.old).scope) }
        ensures nodes { OnOk result (nodes.new ≡ nodes.old ++ (told self.now s.now scope.old).nodes) }
    {
        match &s.form {
            StmtForm::Block(items) => {
                add_fact(nodes, NO_FACT)?;
                self.block(alloc, scope, nodes, items.as_slice())
            }
            StmtForm::Empty => add_fact(nodes, NO_FACT),
            StmtForm::Local { ty, name, value } => {
                self.local(alloc, scope, nodes, ty, name, value)
            }
            StmtForm::Assign { place, value } => self.assign(alloc, scope, nodes, place, value),
            StmtForm::Compound {
                name,
                sign: _,
                value,
            } => self.compound(alloc, scope, nodes, name, value),
            StmtForm::Up(name) | StmtForm::Down(name) => step(scope, nodes, name),
            StmtForm::Call(value) | StmtForm::Print(value) => self.value(
                alloc, scope, nodes, value,
            ),
            StmtForm::If { test, yes, no } => {
                self.value(alloc, scope, nodes, test)?;
                self.statement(alloc, scope, nodes, yes.get())?;
                self.otherwise(alloc, scope, nodes, no)
            }
            StmtForm::While { test, body } => {
                self.value(alloc, scope, nodes, test)?;
                self.statement(alloc, scope, nodes, body.get())
            }
            StmtForm::For {
                first,
                test,
                last,
                body,
            } => {
                let count = scope.locals.names.len();
                add_fact(nodes, NO_FACT)?;
                self.statement(alloc, scope, nodes, first.get())?;
                self.expression(alloc, scope, nodes, test)?;
                self.statement(alloc, scope, nodes, last.get())?;
                self.statement(alloc, scope, nodes, body.get())?;
                scope.leave(count);
                Ok(())
            }
            StmtForm::Return(value) => self.returned(alloc, scope, nodes, value),
        }
    }

    // The statements of a block, and the end of its scope.
    #[cycle(told)]
    #[tactic(auto, using(crate::proofs::ToldForms::forms))]
    fn block(
        &self,
        alloc: Global,
        scope: &mut Scope,
        nodes: &mut Items<Node>,
        items: &[Stmt],
    ) -> Result<(), AllocError>
        ensures scope { OnOk result (scope.new ≡ closed scope.old (specs.in_order (map (told self.now) items.now) scope.old).scope) }
        ensures nodes { OnOk result (nodes.new ≡ nodes.old ++ (specs.in_order (map (told self.now) items.now) scope.old).nodes) }
    {
        let count = scope.locals.names.len();
        for item in items {
            self.statement(alloc, scope, nodes, item)?;
        }
        scope.leave(count);
        Ok(())
    }

    // An `else`.
    #[cycle(told)]
    #[tactic(auto, using(crate::proofs::ToldForms::forms))]
    fn otherwise(
        &self,
        alloc: Global,
        scope: &mut Scope,
        nodes: &mut Items<Node>,
        no: &Option<Boxed<Stmt>>,
    ) -> Result<(), AllocError>
        ensures scope { OnOk result (scope.new ≡ (specs.otherwise (option_map (told self.now) no.now) scope.old).scope) }
        ensures nodes { OnOk result (nodes.new ≡ nodes.old ++ (specs.otherwise (option_map (told self.now) no.now) scope.old).nodes) }
    {
        match no {
            Some(no) => self.statement(alloc, scope, nodes, no.get()),
            None => Ok(()),
        }
    }

    #[tactic(auto, using(crate::proofs::KnownForms::both_added))]
    fn local(
        &self,
        alloc: Global,
        scope: &mut Scope,
        nodes: &mut Items<Node>,
        ty: &TypeName,
        name: &Name,
        value: &Expr,
    ) -> Result<(), AllocError>
        ensures scope { OnOk result (scope.new ≡ (specs.local_told self.now ty.now name.now value.now scope.old).scope) }
        ensures nodes { OnOk result (nodes.new ≡ nodes.old ++ (specs.local_told self.now ty.now name.now value.now scope.old).nodes) }
    {
        let ty = type_of(&self.classes.numbers, ty);
        add_fact(nodes, local_fact(scope.next(ty)?))?;
        self.expression(alloc, scope, nodes, value)?;
        scope.declare(alloc, name.bytes.as_slice(), ty)
    }

    #[tactic(auto, using(crate::proofs::KnownForms::both_added))]
    fn assign(
        &self,
        alloc: Global,
        scope: &Scope,
        nodes: &mut Items<Node>,
        place: &Expr,
        value: &Expr,
    ) -> Result<(), AllocError>
        ensures { OnOk result (nodes.new ≡ nodes.old ++ (specs.assign_told self.now place.now value.now scope.now).nodes) }
    {
        self.value(alloc, scope, nodes, place)?;
        self.expression(alloc, scope, nodes, value)?;
        Ok(())
    }

    #[tactic(auto, using(crate::proofs::KnownForms::both_added))]
    fn compound(
        &self,
        alloc: Global,
        scope: &Scope,
        nodes: &mut Items<Node>,
        name: &Name,
        value: &Expr,
    ) -> Result<(), AllocError>
        ensures { OnOk result (nodes.new ≡ nodes.old ++ (specs.change_told name.now (all_nodes (known self.now value.now scope.now)) scope.now).nodes) }
    {
        step(scope, nodes, name)?;
        self.expression(alloc, scope, nodes, value)?;
        Ok(())
    }

    // A statement that writes no local, and its one or first expression.
    #[tactic(auto, using(crate::proofs::KnownForms::both_added))]
    fn value(
        &self,
        alloc: Global,
        scope: &Scope,
        nodes: &mut Items<Node>,
        value: &Expr,
    ) -> Result<(), AllocError>
        ensures { OnOk result (nodes.new ≡ nodes.old ++ (specs.value_told self.now value.now scope.now).nodes) }
    {
        add_fact(nodes, NO_FACT)?;
        self.expression(alloc, scope, nodes, value)?;
        Ok(())
    }

    fn returned(
        &self,
        alloc: Global,
        scope: &Scope,
        nodes: &mut Items<Node>,
        value: &Option<Expr>,
    ) -> Result<(), AllocError>
        ensures { OnOk result (nodes.new ≡ nodes.old ++ (specs.return_told self.now value.now scope.now).nodes) }
    {
        match value {
            Some(value) => self.value(alloc, scope, nodes, value),
            None => add_fact(nodes, NO_FACT),
        }
    }
}

// `++` and `--`.
fn step(scope: &Scope, nodes: &mut Items<Node>, name: &Name) -> Result<(), AllocError>
    ensures { OnOk result (nodes.new ≡ nodes.old ++ (specs.change_told name.now [] scope.now).nodes) }
{
    add_fact(nodes, changed_fact(scope, name.bytes.as_slice()))
}
