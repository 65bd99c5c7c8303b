//! Assignments, declarations, and calls whose results aren't used.
ghost use Rattle.std.specs.Prelude.{◌≡◌, OnOk};
ghost use Rattle.px_mean.specs.Facts as mean;
ghost use Rattle.px_lowering.specs.Expressions as expressions;
ghost use Rattle.px_lowering.specs.Statements as statements;

use crate::draft::Draft;
use crate::facts::{named_at, type_at};
use crate::operators::{one, op_of};
use crate::valued::{Had, Step, Valued};
use px_facts::{Checked, Named, Ty as Static};
use px_normal::{Counter, Operand, Ty, Word};
use px_tree::{Expr, ExprForm, Sign};
use px_value::Op;
use std::alloc::{AllocError, Global};

impl Draft {
    // Writes a field of an object. `id` is the number of the value.
    fn put(
        &mut self,
        checked: &Checked,
        named: Named,
        of: Operand,
        id: u32,
        token: u32,
        value: Operand,
    ) -> Result<(), AllocError>
        ensures { OnOk result (self.new ≡ expressions.put_by checked.now named of id token value self.old) }
    {
        match named {
            Named::Field { class, place } => {
                let word = Word::Put {
                    of,
                    class,
                    field: place,
                    value,
                };
                self.emit(checked, word, token, Counter::Completed(id))
            }
            _ => Ok(()),
        }
    }

    fn put_name(
        &mut self,
        alloc: Global,
        checked: &Checked,
        named: Named,
        to: Static,
        value: &Expr,
        token: u32,
    ) -> Result<(), AllocError>
        ensures { OnOk result (self.new ≡ expressions.put_name checked.now named to (expressions.part_of checked.now value.now) token self.old) }
    {
        match named {
            Named::Local(slot) => {
                let v = self.value_as(alloc, checked, value, to)?;
                self.into_slot(checked, slot, v, token)
            }
            Named::Field { class, place } => {
                let operand = self.fitted_operand(alloc, checked, value, to)?;
                let field = Named::Field { class, place };
                self.put(checked, field, Operand::Slot(0), value.id, token, operand)
            }
            _ => Ok(()),
        }
    }

    // The object first, then the value, then the write.
    fn put_member(
        &mut self,
        alloc: Global,
        checked: &Checked,
        named: Named,
        to: Static,
        of: &Expr,
        value: &Expr,
        token: u32,
    ) -> Result<(), AllocError>
        ensures { OnOk result (self.new ≡ expressions.put_member checked.now named to (expressions.part_of checked.now of.now) (expressions.part_of checked.now value.now) token self.old) }
    {
        let of = self.operand_at(alloc, checked, of)?;
        let operand = self.fitted_operand(alloc, checked, value, to)?;
        self.put(checked, named, of, value.id, token, operand)
    }

    // The array, the index, the value, and then the write.
    fn put_element(
        &mut self,
        alloc: Global,
        checked: &Checked,
        to: Static,
        of: &Expr,
        index: &Expr,
        value: &Expr,
        token: u32,
    ) -> Result<(), AllocError>
        ensures { OnOk result (self.new ≡ expressions.put_element checked.now to (expressions.part_of checked.now of.now) (expressions.part_of checked.now index.now) (expressions.part_of checked.now value.now) token self.old) }
    {
        let counter = Counter::Completed(value.id);
        let array = self.operand_at(alloc, checked, of)?;
        let place = self.operand_at(alloc, checked, index)?;
        let value = self.fitted_operand(alloc, checked, value, to)?;
        let word = Word::Store {
            of: array,
            index: place,
            value,
        };
        self.emit(checked, word, token, counter)
    }

    /// The assignment of a value to a place.
    pub fn assign(
        &mut self,
        alloc: Global,
        checked: &Checked,
        place: &Expr,
        value: &Expr,
        token: u32,
    ) -> Result<(), AllocError>
        ensures { OnOk result (self.new ≡ expressions.put_low checked.now place.now (expressions.part_of checked.now value.now) token self.old) }
    {
        let named = named_at(&checked.facts, place.id);
        let to = type_at(&checked.facts, place.id);
        match &place.form {
            ExprForm::Name(_) => self.put_name(alloc, checked, named, to, value, token),
            ExprForm::Field { of, name: _ } => {
                self.put_member(alloc, checked, named, to, of.get(), value, token)
            }
            ExprForm::Index { of, index } => {
                self.put_element(alloc, checked, to, of.get(), index.get(), value, token)
            }
            _ => Ok(()),
        }
    }

    // A local gets what an operator gives of it and of this operand.
    fn change(
        &mut self,
        checked: &Checked,
        op: Op,
        slot: u16,
        counter: Counter,
        token: u32,
        operand: Operand,
    ) -> Result<(), AllocError>
        ensures { OnOk result (self.new ≡ statements.change checked.now op slot counter token operand self.old) }
    {
        let word = Word::Op {
            op,
            to: slot,
            left: Operand::Slot(slot),
            right: Some(operand),
        };
        self.emit(checked, word, token, counter)
    }

    /// `x += e` and the like, in the statement of this number.
    pub fn compound(
        &mut self,
        alloc: Global,
        checked: &Checked,
        value: &Expr,
        sign: Sign,
        id: u32,
        token: u32,
    ) -> Result<(), AllocError>
        ensures { OnOk result (self.new ≡ statements.compound_low checked.now (mean.named_at checked.now.facts id) (mean.op_of sign (mean.type_at checked.now.facts id) (mean.type_at checked.now.facts value.now.id)) (expressions.part_of checked.now value.now) token self.old) }
    {
        let facts = &checked.facts;
        let op = op_of(sign, type_at(facts, id), type_at(facts, value.id));
        match named_at(facts, id) {
            Named::Local(slot) => {
                let counter = Counter::Completed(value.id);
                let operand = self.operand_at(alloc, checked, value)?;
                self.change(checked, op, slot, counter, token, operand)
            }
            _ => Ok(()),
        }
    }

    /// `x++` or `x--`, in the statement of this number.
    pub fn by_one(
        &mut self,
        checked: &Checked,
        op: Op,
        id: u32,
        token: u32,
    ) -> Result<(), AllocError>
        ensures { OnOk result (self.new ≡ statements.by_one_low checked.now (mean.named_at checked.now.facts id) op id token self.old) }
    {
        match named_at(&checked.facts, id) {
            Named::Local(slot) => {
                let operand = Operand::Literal(one(type_at(&checked.facts, id)));
                self.change(checked, op, slot, Counter::Begun(id), token, operand)
            }
            _ => Ok(()),
        }
    }

    // The value of a declaration, where a local of this name stands.
    fn store(
        &mut self,
        checked: &Checked,
        named: Named,
        token: u32,
        v: Valued,
    ) -> Result<(), AllocError>
        ensures { OnOk result (self.new ≡ statements.store checked.now named token (record { out = self.old; value = v })) }
    {
        match named {
            Named::Local(slot) => self.into_slot(checked, slot, v, token),
            _ => {
                self.operand(checked, v)?;
                Ok(())
            }
        }
    }

    /// A declaration, in the statement of this number.
    pub fn local(
        &mut self,
        alloc: Global,
        checked: &Checked,
        value: &Expr,
        id: u32,
        token: u32,
    ) -> Result<(), AllocError>
        ensures { OnOk result (self.new ≡ statements.local_low checked.now (expressions.part_of checked.now value.now) id token self.old) }
    {
        let v = self.value_as(alloc, checked, value, type_at(&checked.facts, id))?;
        self.store(checked, named_at(&checked.facts, id), token, v)
    }

    // The statement of a call of a method without a result.
    fn call_word(
        &mut self,
        checked: &Checked,
        step: Step,
        ty: Ty,
        token: u32,
        counter: Counter,
    ) -> Result<(), AllocError>
        ensures { OnOk result (self.new ≡ statements.without_result checked.now token (Had.Made step ty counter) self.old) }
    {
        match step {
            Step::Call { of, method, args } => {
                let word = Word::Call {
                    to: None,
                    of,
                    method,
                    args,
                };
                self.emit(checked, word, token, counter)
            }
            step => {
                let had = Had::Made { step, ty, counter };
                self.operand(checked, Valued { id: 0, token, had })?;
                Ok(())
            }
        }
    }

    // The call of a method without a result.
    fn without_result(&mut self, checked: &Checked, v: Valued) -> Result<(), AllocError>
        ensures { OnOk result (self.new ≡ statements.without_result checked.now v.token v.had self.old) }
    {
        let Valued { id, token, had } = v;
        match had {
            Had::Made { step, ty, counter } => self.call_word(checked, step, ty, token, counter),
            had => {
                self.operand(checked, Valued { id, token, had })?;
                Ok(())
            }
        }
    }

    /// A call whose result isn't used.
    pub fn unused(
        &mut self,
        alloc: Global,
        checked: &Checked,
        call: &Expr,
    ) -> Result<(), AllocError>
        ensures { OnOk result (self.new ≡ statements.call_low checked.now (expressions.part_of checked.now call.now) self.old) }
    {
        let v = self.value(alloc, checked, call)?;
        if type_at(&checked.facts, call.id).is_void() {
            self.without_result(checked, v)
        } else {
            self.operand(checked, v)?;
            Ok(())
        }
    }
}
