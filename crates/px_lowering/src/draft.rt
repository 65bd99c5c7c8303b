//! The statements of a method, as they come.
ghost use Rattle.std.specs.Prelude.{◌≡◌, ◌+◌, ◌++◌, ◌∷◌, [], length, slice_get, IfOk, OnOk};
ghost use Rattle.px_lowering.specs.Emit.{emitted, noded, with_temp, operated, slotted, temped, widened, fitted, line_in, with_trees};

use crate::valued::{Had, Step, Valued};
use px_facts::{Checked, Ty as Static};
use px_lex::Token;
use px_normal::{Counter, Node, NodeKind, Operand, Tree, Ty, Word};
use px_value::{Op, Value};
use sqlite_items::{Items, at};
use std::alloc::{AllocError, Global};

/// What is lowered so far of a method.
#[derive(Drop)]
pub struct Draft {
    /// The number of the method.
    pub method: u16,
    /// Of the list of statements that is being made.
    pub trees: Items<Tree>,
    /// Of the program so far.
    pub nodes: Items<Node>,
    /// The types of the slots: `this`, the parameters, all locals, and the temporaries so far.
    pub slots: Items<Ty>,
}

/// The line of a token.
pub fn line_at(tokens: &[Token], token: u32) -> u32
    ensures { result ≡ line_in (slice_get tokens.now token) }
{
    match at(tokens, token as usize) {
        Some(token) => token.line,
        None => 0,
    }
}

/// The number of the next node.
pub fn next_node(nodes: &Items<Node>) -> Result<u32, AllocError>
    ensures { IfOk result (λ node. node ≡ length nodes.now + 1) }
{
    let count = nodes.len();
    if count >= u32::MAX as usize {
        return Err(AllocError);
    }
    Ok(count as u32 + 1)
}

impl Draft {
    /// Adds the node of a statement, and gives its number.
    pub fn node(
        &mut self,
        checked: &Checked,
        token: u32,
        counter: Counter,
    ) -> Result<u32, AllocError>
        ensures number { IfOk result (λ node. node ≡ length self.old.nodes + 1) }
        ensures out { OnOk result (self.new ≡ noded checked.now token counter self.old) }
    {
        let node = next_node(&self.nodes)?;
        self.nodes.push(Node {
            kind: NodeKind::Normal,
            line: line_at(checked.program.tokens.as_slice(), token),
            method: Some(self.method),
            counter: Some(counter),
        })?;
        Ok(node)
    }

    /// Adds a statement, with its node.
    pub fn emit(
        &mut self,
        checked: &Checked,
        word: Word,
        token: u32,
        counter: Counter,
    ) -> Result<(), AllocError>
        ensures { OnOk result (self.new ≡ emitted checked.now word token counter self.old) }
    {
        let node = self.node(checked, token, counter)?;
        self.trees.push(Tree::Do { node, word })
    }

    /// Begins a list of statements of its own; the one before it is handed out.
    pub fn begin(&mut self, alloc: Global) -> Items<Tree>
        ensures before { result ≡ self.old.trees }
        ensures out { self.new ≡ with_trees [] self.old }
    {
        let empty = Items::new(alloc);
        std::mem::replace(&mut self.trees, empty)
    }

    /// Goes on with the list before; the one that ends is handed out.
    pub fn end(&mut self, before: Items<Tree>) -> Items<Tree>
        ensures made { result ≡ self.old.trees }
        ensures out { self.new ≡ with_trees before self.old }
    {
        std::mem::replace(&mut self.trees, before)
    }

    // The slot of a new temporary.
    fn temp(&mut self, ty: Ty) -> Result<u16, AllocError>
        ensures slot { IfOk result (λ slot. slot ≡ length self.old.slots) }
        ensures out { OnOk result (self.new ≡ with_temp ty self.old) }
    {
        let slot = self.slots.len();
        if slot > u16::MAX as usize {
            return Err(AllocError);
        }
        self.slots.push(ty)?;
        Ok(slot as u16)
    }

    /// The value as an operand: a statement writes it into a new temporary.
    pub fn operand(&mut self, checked: &Checked, v: Valued) -> Result<Operand, AllocError>
        ensures operand { IfOk result (λ a. a ≡ (operated checked.now v.token v.had self.old).operand) }
        ensures out { OnOk result (self.new ≡ (operated checked.now v.token v.had self.old).out) }
    {
        let Valued { id: _, token, had } = v;
        match had {
            Had::Held(operand) => Ok(operand),
            Had::Chosen(slot) => Ok(Operand::Slot(slot)),
            Had::Made { step, ty, counter } => {
                let slot = self.temp(ty)?;
                self.emit(checked, step.writes(slot), token, counter)?;
                Ok(Operand::Slot(slot))
            }
        }
    }

    /// The value in a temporary that may be written again. `token` is the first one of the choice
    /// that needs it.
    pub fn into_temp(&mut self, checked: &Checked, v: Valued, token: u32) -> Result<u16, AllocError>
        ensures slot { IfOk result (λ slot. slot ≡ (temped checked.now token v.id v.token v.had self.old).temp) }
        ensures out { OnOk result (self.new ≡ (temped checked.now token v.id v.token v.had self.old).out) }
    {
        let Valued { id, token: at, had } = v;
        match had {
            Had::Held(value) => {
                let to = self.temp(Ty::Bool)?;
                let word = Word::Set { to, value };
                self.emit(checked, word, token, Counter::Completed(id))?;
                Ok(to)
            }
            Had::Chosen(slot) => Ok(slot),
            Had::Made { step, ty, counter } => {
                let slot = self.temp(ty)?;
                self.emit(checked, step.writes(slot), at, counter)?;
                Ok(slot)
            }
        }
    }

    /// The value in this slot. `token` is the first one of what needs it there.
    pub fn into_slot(
        &mut self,
        checked: &Checked,
        to: u16,
        v: Valued,
        token: u32,
    ) -> Result<(), AllocError>
        ensures { OnOk result (self.new ≡ slotted checked.now to token v.id v.token v.had self.old) }
    {
        let Valued { id, token: at, had } = v;
        match had {
            Had::Held(value) => {
                let word = Word::Set { to, value };
                self.emit(checked, word, token, Counter::Completed(id))
            }
            Had::Chosen(slot) => {
                let value = Operand::Slot(slot);
                let word = Word::Set { to, value };
                self.emit(checked, word, token, Counter::Completed(id))
            }
            Had::Made {
                step,
                ty: _,
                counter,
            } => self.emit(checked, step.writes(to), at, counter),
        }
    }

    // An int as a long.
    fn widen(&mut self, checked: &Checked, v: Valued) -> Result<Valued, AllocError>
        ensures value { IfOk result (λ x. x ≡ (widened checked.now v.id v.token v.had self.old).value) }
        ensures out { OnOk result (self.new ≡ (widened checked.now v.id v.token v.had self.old).out) }
    {
        let Valued { id, token, had } = v;
        let had = match had {
            Had::Held(Operand::Literal(Value::Int(n))) => {
                Had::Held(Operand::Literal(Value::Long(i64::from(n))))
            }
            had => {
                let left = self.operand(checked, Valued { id, token, had })?;
                Had::Made {
                    step: Step::Op {
                        op: Op::Widen,
                        left,
                        right: None,
                    },
                    ty: Ty::Long,
                    counter: Counter::Completed(id),
                }
            }
        };
        Ok(Valued { id, token, had })
    }

    /// A value of one type where another is wanted.
    pub fn fit(
        &mut self,
        checked: &Checked,
        from: Static,
        to: Static,
        v: Valued,
    ) -> Result<Valued, AllocError>
        ensures value { IfOk result (λ x. x ≡ (fitted checked.now from to v.id v.token v.had self.old).value) }
        ensures out { OnOk result (self.new ≡ (fitted checked.now from to v.id v.token v.had self.old).out) }
    {
        match (from, to) {
            (Static::Int, Static::Long) => self.widen(checked, v),
            (_, _) => Ok(v),
        }
    }
}
