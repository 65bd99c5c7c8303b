//! Statements.
ghost use Rattle.std.specs.Prelude.{◌≡◌, ◌++◌, ◌∷◌, [], map, option_map, IfOk, OnOk};
ghost use Rattle.px_lowering.specs.Emit.{with_trees};
ghost use Rattle.px_lowering.specs.Expressions.{part_of};
ghost use Rattle.px_lowering.specs.Statements as statements;

use crate::draft::Draft;
use px_facts::{Checked, Ty as Static};
use px_normal::{Counter, Operand, Tree, Word};
use px_tree::{Expr, Stmt, StmtForm};
use px_value::Op;
use sqlite_items::{Boxed, Items};
use std::alloc::{AllocError, Global};

/// The test of a loop, behind the statements that it needs.
#[derive(Drop)]
pub struct Tested {
    /// The list of statements that the loop ends.
    pub before: Items<Tree>,
    /// What runs before each test.
    pub first: Items<Tree>,
    pub node: u32,
    pub operand: Operand,
}

impl Draft {
    // The `if` behind its branches, the second of which is the list so far.
    fn branched(
        &mut self,
        before: Items<Tree>,
        node: u32,
        test: Operand,
        branch: Items<Tree>,
    ) -> Result<(), AllocError>
        ensures { OnOk result (self.new ≡ with_trees (before ++ Tree.If node test branch self.old.trees ∷ []) self.old) }
    {
        let no = self.end(before);
        self.trees.push(Tree::If {
            node,
            test,
            yes: branch,
            no,
        })
    }

    // The test of a loop. What comes next runs after it.
    fn tested(
        &mut self,
        alloc: Global,
        checked: &Checked,
        test: &Expr,
        token: u32,
    ) -> Result<Tested, AllocError>
        ensures value { IfOk result (λ t. t ≡ (statements.tested checked.now (part_of checked.now test.now) token self.old).value) }
        ensures out { OnOk result (self.new ≡ (statements.tested checked.now (part_of checked.now test.now) token self.old).out) }
    {
        let before = self.begin(alloc);
        let operand = self.operand_at(alloc, checked, test)?;
        let node = self.node(checked, token, Counter::Completed(test.id))?;
        let first = self.begin(alloc);
        Ok(Tested {
            before,
            first,
            node,
            operand,
        })
    }

    // The loop, whose body is the list so far.
    fn looped(&mut self, tested: Tested) -> Result<(), AllocError>
        ensures { OnOk result (self.new ≡ statements.looped tested self.old) }
    {
        let Tested {
            before,
            first,
            node,
            operand,
        } = tested;
        let body = self.end(before);
        self.trees.push(Tree::Loop {
            first,
            node,
            test: operand,
            body,
        })
    }

    // A `return`.
    fn leave(
        &mut self,
        alloc: Global,
        checked: &Checked,
        gives: Static,
        value: &Option<Expr>,
        id: u32,
        token: u32,
    ) -> Result<(), AllocError>
        ensures { OnOk result (self.new ≡ statements.return_low checked.now gives (option_map (part_of checked.now) value.now) id token self.old) }
    {
        match value {
            None => self.emit(checked, Word::Return(None), token, Counter::Begun(id)),
            Some(e) => {
                let operand = self.fitted_operand(alloc, checked, e, gives)?;
                let word = Word::Return(Some(operand));
                self.emit(checked, word, token, Counter::Completed(e.id))
            }
        }
    }

    fn print(
        &mut self,
        alloc: Global,
        checked: &Checked,
        value: &Expr,
        token: u32,
    ) -> Result<(), AllocError>
        ensures { OnOk result (self.new ≡ statements.print_low checked.now (part_of checked.now value.now) token self.old) }
    {
        let operand = self.operand_at(alloc, checked, value)?;
        self.emit(
            checked,
            Word::Print(operand),
            token,
            Counter::Completed(value.id),
        )
    }

    /// A statement of a method of this type.
    #[cycle(statement)]
    #[tactic(auto, using(crate::proofs::StmtForms::lowers))]
    pub fn statement(
        &mut self,
        alloc: Global,
        checked: &Checked,
        gives: Static,
        s: &Stmt,
    ) -> Result<(), AllocError>
        ensures { OnOk result (self.new ≡ statements.low_stmt checked.now gives s.now self.old) }
    {
        match &s.form {
            StmtForm::Block(items) => self.statements(alloc, checked, gives, items.as_slice()),
            StmtForm::Empty => Ok(()),
            StmtForm::Local {
                ty: _,
                name: _,
                value,
            } => self.local(alloc, checked, value, s.id, s.token),
            StmtForm::Assign { place, value } => {
                self.assign(alloc, checked, place, value, s.token)
            }
            StmtForm::Compound {
                name: _,
                sign,
                value,
            } => self.compound(alloc, checked, value, *sign, s.id, s.token),
            StmtForm::Up(_) => self.by_one(checked, Op::Add, s.id, s.token),
            StmtForm::Down(_) => self.by_one(checked, Op::Sub, s.id, s.token),
            StmtForm::Call(call) => self.unused(alloc, checked, call),
            StmtForm::If { test, yes, no } => {
                self.if_statement(alloc, checked, gives, no, yes.get(), test, s.token)
            }
            StmtForm::While { test, body } => {
                self.while_loop(alloc, checked, gives, body.get(), test, s.token)
            }
            StmtForm::For {
                first,
                test,
                last,
                body,
            } => self.for_loop(
                alloc,
                checked,
                gives,
                first.get(),
                last.get(),
                body.get(),
                test,
                s.token,
            ),
            StmtForm::Return(value) => self.leave(alloc, checked, gives, value, s.id, s.token),
            StmtForm::Print(value) => self.print(alloc, checked, value, s.token),
        }
    }

    #[cycle(statement)]
    fn statements(
        &mut self,
        alloc: Global,
        checked: &Checked,
        gives: Static,
        items: &[Stmt],
    ) -> Result<(), AllocError>
        ensures { OnOk result (self.new ≡ statements.lower_all (map (statements.low_stmt checked.now gives) items.now) self.old) }
    {
        for item in items {
            self.statement(alloc, checked, gives, item)?;
        }
        Ok(())
    }

    #[cycle(statement)]
    fn other(
        &mut self,
        alloc: Global,
        checked: &Checked,
        gives: Static,
        no: &Option<Boxed<Stmt>>,
    ) -> Result<(), AllocError>
        ensures { OnOk result (self.new ≡ statements.lower_if (option_map (statements.low_stmt checked.now gives) no.now) self.old) }
    {
        match no {
            None => Ok(()),
            Some(s) => self.statement(alloc, checked, gives, s.get()),
        }
    }

    // An `if`: each branch in a list of its own.
    #[cycle(statement)]
    fn if_statement(
        &mut self,
        alloc: Global,
        checked: &Checked,
        gives: Static,
        no: &Option<Boxed<Stmt>>,
        yes: &Stmt,
        test: &Expr,
        token: u32,
    ) -> Result<(), AllocError>
        ensures { OnOk result (self.new ≡ statements.if_low checked.now (part_of checked.now test.now) (statements.low_stmt checked.now gives yes.now) (option_map (statements.low_stmt checked.now gives) no.now) token self.old) }
    {
        let operand = self.operand_at(alloc, checked, test)?;
        let node = self.node(checked, token, Counter::Completed(test.id))?;
        let before = self.begin(alloc);
        self.statement(alloc, checked, gives, yes)?;
        let branch = self.begin(alloc);
        self.other(alloc, checked, gives, no)?;
        self.branched(before, node, operand, branch)
    }

    #[cycle(statement)]
    fn while_loop(
        &mut self,
        alloc: Global,
        checked: &Checked,
        gives: Static,
        body: &Stmt,
        test: &Expr,
        token: u32,
    ) -> Result<(), AllocError>
        ensures { OnOk result (self.new ≡ statements.loop_low checked.now (part_of checked.now test.now) (statements.low_stmt checked.now gives body.now) token self.old) }
    {
        let tested = self.tested(alloc, checked, test, token)?;
        self.statement(alloc, checked, gives, body)?;
        self.looped(tested)
    }

    #[cycle(statement)]
    fn for_loop(
        &mut self,
        alloc: Global,
        checked: &Checked,
        gives: Static,
        first: &Stmt,
        last: &Stmt,
        body: &Stmt,
        test: &Expr,
        token: u32,
    ) -> Result<(), AllocError>
        ensures { OnOk result (self.new ≡ statements.for_low checked.now (statements.low_stmt checked.now gives first.now) (part_of checked.now test.now) (statements.low_stmt checked.now gives last.now) (statements.low_stmt checked.now gives body.now) token self.old) }
    {
        self.statement(alloc, checked, gives, first)?;
        let tested = self.tested(alloc, checked, test, token)?;
        self.statement(alloc, checked, gives, body)?;
        self.statement(alloc, checked, gives, last)?;
        self.looped(tested)
    }
}
