//! The values of expressions.
ghost use Rattle.std.specs.Prelude.{◌≡◌, ◌++◌, ◌∷◌, [], map, option_map, IfOk, OnOk};
ghost use Rattle.px_mean.specs.Expressions as mean;
ghost use Rattle.px_mean.specs.Facts as mean_facts;
ghost use Rattle.px_lowering.specs.Emit.{with_trees};
ghost use Rattle.px_lowering.specs.Expressions as expressions;

use crate::calls::{Arguments, Received, called, is_operation, operands, wanted_at};
use crate::draft::Draft;
use crate::facts::{code_type, element_number, named_at, params_of, type_at};
use crate::operators::{choice_of, literal, negative, op_of, prefix_of};
use crate::valued::{Had, Step, Valued};
use px_facts::{Checked, Named, Ty as Static};
use px_normal::{Counter, Operand, Tree};
use px_tree::{Expr, ExprForm, Sign};
use px_value::{Op, Text, Value};
use sqlite_items::{Boxed, Items};
use std::alloc::{AllocError, Global};

/// By a statement that gives a value of the expression's own type.
pub fn made(checked: &Checked, id: u32, step: Step, counter: Counter) -> Result<Had, AllocError>
    ensures { IfOk result (λ h. h ≡ expressions.made checked.now id step counter) }
{
    let ty = code_type(type_at(&checked.facts, id))?;
    Ok(Had::Made { step, ty, counter })
}

/// A value that stands in the code.
pub fn stands(value: Value) -> Had
    ensures { result ≡ expressions.stands value }
{
    Had::Held(Operand::Literal(value))
}

// The value of an expression that is had so.
fn valued(id: u32, token: u32, had: Had) -> Valued
    ensures { result ≡ record { id = id; token = token; had = had } }
{
    Valued { id, token, had }
}

// A text that stands in the code.
fn text(alloc: Global, bytes: &[u8]) -> Result<Had, AllocError>
    ensures { IfOk result (λ h. h ≡ expressions.stands (Value.Text bytes.now)) }
{
    let bytes = Vec::from_slice(alloc, bytes)?;
    Ok(stands(Value::Text(Text::from_vec(bytes))))
}

// A bare name.
fn name_had(checked: &Checked, id: u32) -> Result<Had, AllocError>
    ensures { IfOk result (λ h. h ≡ expressions.name_had checked.now (mean_facts.named_at checked.now.facts id) id) }
{
    match named_at(&checked.facts, id) {
        Named::Local(slot) => Ok(Had::Held(Operand::Slot(slot))),
        Named::Field { class, place } => {
            let of = Operand::Slot(0);
            let field = place;
            made(
                checked,
                id,
                Step::Get { of, class, field },
                Counter::Begun(id),
            )
        }
        _ => Ok(stands(Value::Null)),
    }
}

// A field of an object, or the length of an array.
fn member_had(checked: &Checked, id: u32, of: Operand, of_id: u32) -> Result<Had, AllocError>
    ensures { IfOk result (λ h. h ≡ expressions.member_had checked.now (mean_facts.named_at checked.now.facts id) id of of_id) }
{
    match named_at(&checked.facts, id) {
        Named::Field { class, place } => {
            let field = place;
            made(
                checked,
                id,
                Step::Get { of, class, field },
                Counter::Completed(of_id),
            )
        }
        Named::ArrayLength => made(checked, id, Step::Len { of }, Counter::Completed(of_id)),
        _ => Ok(stands(Value::Null)),
    }
}

fn object_had(checked: &Checked, id: u32) -> Result<Had, AllocError>
    ensures { IfOk result (λ h. h ≡ expressions.object_had checked.now (mean_facts.named_at checked.now.facts id) id) }
{
    match named_at(&checked.facts, id) {
        Named::NewObject { class, site } => {
            made(checked, id, Step::New { class, site }, Counter::Begun(id))
        }
        _ => Ok(stands(Value::Null)),
    }
}

fn array_had(checked: &Checked, id: u32, length: Operand, length_id: u32) -> Result<Had, AllocError>
    ensures { IfOk result (λ h. h ≡ expressions.array_had checked.now (mean_facts.named_at checked.now.facts id) (mean_facts.type_at checked.now.facts id) id length length_id) }
{
    match (named_at(&checked.facts, id), type_at(&checked.facts, id)) {
        (Named::NewArray { site }, Static::Array(element)) => {
            let element = element_number(element)?;
            let step = Step::Array {
                element,
                length,
                site,
            };
            made(checked, id, step, Counter::Completed(length_id))
        }
        (_, _) => Ok(stands(Value::Null)),
    }
}

// The value of a sign with a number right behind it, where both are one literal.
fn literal_with(sign: Sign, value: &Expr) -> Option<Value>
    ensures { result ≡ expressions.literal_behind sign (expressions.number_of value.now) }
{
    match sign {
        Sign::Minus => match &value.form {
            ExprForm::Number { digits, long } => {
                Some(negative(&literal(digits.as_slice(), *long)))
            }
            _ => None,
        },
        _ => None,
    }
}

// The `if` of a choice, which runs the code where the value in the temporary is as it says.
fn choice_tree(alloc: Global, both: bool, node: u32, temp: u16, code: Items<Tree>) -> Tree
    ensures { result ≡ expressions.choice both node temp code }
{
    let test = Operand::Slot(temp);
    let none = Items::new(alloc);
    if both {
        Tree::If {
            node,
            test,
            yes: code,
            no: none,
        }
    } else {
        Tree::If {
            node,
            test,
            yes: none,
            no: code,
        }
    }
}

impl Draft {
    // The `if` of a choice, behind the list before.
    fn choose(
        &mut self,
        alloc: Global,
        before: Items<Tree>,
        both: bool,
        node: u32,
        temp: u16,
    ) -> Result<(), AllocError>
        ensures { OnOk result (self.new ≡ with_trees (before ++ expressions.choice both node temp self.old.trees ∷ []) self.old) }
    {
        let code = self.end(before);
        let tree = choice_tree(alloc, both, node, temp, code);
        self.trees.push(tree)
    }

    /// The value of an expression, up to its last statement.
    #[cycle(expression)]
    #[tactic(auto, using(crate::proofs::Forms::lowers))]
    pub fn value(
        &mut self,
        alloc: Global,
        checked: &Checked,
        e: &Expr,
    ) -> Result<Valued, AllocError>
        ensures value { IfOk result (λ v. v ≡ ((expressions.low checked.now e.now).part.lower self.old).value) }
        ensures out { OnOk result (self.new ≡ ((expressions.low checked.now e.now).part.lower self.old).out) }
    {
        match &e.form {
            ExprForm::Number { digits, long } => {
                let value = literal(digits.as_slice(), *long);
                Ok(valued(e.id, e.token, stands(value)))
            }
            ExprForm::Str(bytes) => {
                let had = text(alloc, bytes.as_slice())?;
                Ok(valued(e.id, e.token, had))
            }
            ExprForm::True => Ok(valued(e.id, e.token, stands(Value::Bool(true)))),
            ExprForm::False => Ok(valued(e.id, e.token, stands(Value::Bool(false)))),
            ExprForm::Null => Ok(valued(e.id, e.token, stands(Value::Null))),
            ExprForm::This => Ok(valued(e.id, e.token, Had::Held(Operand::Slot(0)))),
            ExprForm::Name(_) => {
                let had = name_had(checked, e.id)?;
                Ok(valued(e.id, e.token, had))
            }
            ExprForm::Group(inner) => self.value(alloc, checked, inner.get()),
            ExprForm::Field { of, name: _ } => {
                self.member(alloc, checked, of.get(), e.id, e.token)
            }
            ExprForm::Index { of, index } => {
                self.element(alloc, checked, of.get(), index.get(), e.id, e.token)
            }
            ExprForm::Call { of, name: _, args } => {
                self.call(alloc, checked, args, of, e.id, e.token)
            }
            ExprForm::NewObject(_) => {
                let had = object_had(checked, e.id)?;
                Ok(valued(e.id, e.token, had))
            }
            ExprForm::NewArray { base: _, length } => {
                self.array(alloc, checked, length.get(), e.id, e.token)
            }
            ExprForm::Prefix { sign, value } => {
                self.prefix(alloc, checked, value.get(), *sign, e.id, e.token)
            }
            ExprForm::Binary {
                sign,
                sign_token: _,
                left,
                right,
            } => self.binary(
                alloc,
                checked,
                left.get(),
                right.get(),
                *sign,
                e.id,
                e.token,
            ),
        }
    }

    /// The value of an expression, as an operand.
    #[cycle(expression)]
    pub fn operand_at(
        &mut self,
        alloc: Global,
        checked: &Checked,
        e: &Expr,
    ) -> Result<Operand, AllocError>
        ensures operand { IfOk result (λ a. a ≡ (expressions.operand_at checked.now (expressions.part_of checked.now e.now) self.old).operand) }
        ensures out { OnOk result (self.new ≡ (expressions.operand_at checked.now (expressions.part_of checked.now e.now) self.old).out) }
    {
        let v = self.value(alloc, checked, e)?;
        self.operand(checked, v)
    }

    /// The value of an expression, where this type is wanted, as an operand.
    #[cycle(expression)]
    pub fn fitted_operand(
        &mut self,
        alloc: Global,
        checked: &Checked,
        e: &Expr,
        to: Static,
    ) -> Result<Operand, AllocError>
        ensures operand { IfOk result (λ a. a ≡ (expressions.fitted_operand checked.now to (expressions.part_of checked.now e.now) self.old).operand) }
        ensures out { OnOk result (self.new ≡ (expressions.fitted_operand checked.now to (expressions.part_of checked.now e.now) self.old).out) }
    {
        let v = self.value(alloc, checked, e)?;
        let fitted = self.fit(checked, type_at(&checked.facts, e.id), to, v)?;
        let operand = self.operand(checked, fitted)?;
        Ok(operand)
    }

    /// The value of an expression, where this type is wanted.
    pub fn value_as(
        &mut self,
        alloc: Global,
        checked: &Checked,
        e: &Expr,
        to: Static,
    ) -> Result<Valued, AllocError>
        ensures value { IfOk result (λ v. v ≡ (expressions.fit_to checked.now to (expressions.part_of checked.now e.now) self.old).value) }
        ensures out { OnOk result (self.new ≡ (expressions.fit_to checked.now to (expressions.part_of checked.now e.now) self.old).out) }
    {
        let v = self.value(alloc, checked, e)?;
        let fitted = self.fit(checked, type_at(&checked.facts, e.id), to, v)?;
        Ok(fitted)
    }

    // A field of an object, or the length of an array.
    #[cycle(expression)]
    fn member(
        &mut self,
        alloc: Global,
        checked: &Checked,
        of: &Expr,
        id: u32,
        token: u32,
    ) -> Result<Valued, AllocError>
        ensures value { IfOk result (λ v. v ≡ (expressions.member_low checked.now (expressions.part_of checked.now of.now) id token self.old).value) }
        ensures out { OnOk result (self.new ≡ (expressions.member_low checked.now (expressions.part_of checked.now of.now) id token self.old).out) }
    {
        let operand = self.operand_at(alloc, checked, of)?;
        let had = member_had(checked, id, operand, of.id)?;
        Ok(valued(id, token, had))
    }

    // An element of an array.
    #[cycle(expression)]
    fn element(
        &mut self,
        alloc: Global,
        checked: &Checked,
        of: &Expr,
        index: &Expr,
        id: u32,
        token: u32,
    ) -> Result<Valued, AllocError>
        ensures value { IfOk result (λ v. v ≡ (expressions.index_low checked.now (expressions.part_of checked.now of.now) (expressions.part_of checked.now index.now) id token self.old).value) }
        ensures out { OnOk result (self.new ≡ (expressions.index_low checked.now (expressions.part_of checked.now of.now) (expressions.part_of checked.now index.now) id token self.old).out) }
    {
        let counter = Counter::Completed(index.id);
        let of = self.operand_at(alloc, checked, of)?;
        let index = self.operand_at(alloc, checked, index)?;
        let had = made(checked, id, Step::Load { of, index }, counter)?;
        Ok(valued(id, token, had))
    }

    // A new array.
    #[cycle(expression)]
    fn array(
        &mut self,
        alloc: Global,
        checked: &Checked,
        length: &Expr,
        id: u32,
        token: u32,
    ) -> Result<Valued, AllocError>
        ensures value { IfOk result (λ v. v ≡ (expressions.array_low checked.now (expressions.part_of checked.now length.now) id token self.old).value) }
        ensures out { OnOk result (self.new ≡ (expressions.array_low checked.now (expressions.part_of checked.now length.now) id token self.old).out) }
    {
        let operand = self.operand_at(alloc, checked, length)?;
        let had = array_had(checked, id, operand, length.id)?;
        Ok(valued(id, token, had))
    }

    // A prefix: a minus with a number right behind it is a literal, and a cast that does nothing
    // leaves the value as it is.
    #[cycle(expression)]
    fn prefix(
        &mut self,
        alloc: Global,
        checked: &Checked,
        value: &Expr,
        sign: Sign,
        id: u32,
        token: u32,
    ) -> Result<Valued, AllocError>
        ensures value { IfOk result (λ v. v ≡ (expressions.prefix_low checked.now (expressions.literal_behind sign (expressions.number_of value.now)) (mean_facts.prefix_of sign (mean_facts.type_at checked.now.facts value.now.id)) (expressions.part_of checked.now value.now) id token self.old).value) }
        ensures out { OnOk result (self.new ≡ (expressions.prefix_low checked.now (expressions.literal_behind sign (expressions.number_of value.now)) (mean_facts.prefix_of sign (mean_facts.type_at checked.now.facts value.now.id)) (expressions.part_of checked.now value.now) id token self.old).out) }
    {
        match literal_with(sign, value) {
            Some(number) => Ok(valued(id, token, stands(number))),
            None => match prefix_of(sign, type_at(&checked.facts, value.id)) {
                None => {
                    let same = self.value(alloc, checked, value)?;
                    Ok(same)
                }
                Some(op) => {
                    let counter = Counter::Completed(value.id);
                    let left = self.operand_at(alloc, checked, value)?;
                    let right = None;
                    let had = made(checked, id, Step::Op { op, left, right }, counter)?;
                    Ok(valued(id, token, had))
                }
            },
        }
    }

    #[cycle(expression)]
    fn binary(
        &mut self,
        alloc: Global,
        checked: &Checked,
        left: &Expr,
        right: &Expr,
        sign: Sign,
        id: u32,
        token: u32,
    ) -> Result<Valued, AllocError>
        ensures value { IfOk result (λ v. v ≡ (expressions.binary_low checked.now sign (expressions.part_of checked.now left.now) (expressions.part_of checked.now right.now) id token self.old).value) }
        ensures out { OnOk result (self.new ≡ (expressions.binary_low checked.now sign (expressions.part_of checked.now left.now) (expressions.part_of checked.now right.now) id token self.old).out) }
    {
        match choice_of(sign) {
            Some(both) => {
                let v = self.choice(alloc, checked, left, right, both, id, token)?;
                Ok(v)
            }
            None => {
                let facts = &checked.facts;
                let op = op_of(sign, type_at(facts, left.id), type_at(facts, right.id));
                let v = self.two(alloc, checked, left, right, op, id, token)?;
                Ok(v)
            }
        }
    }

    // An operator with two operands.
    #[cycle(expression)]
    fn two(
        &mut self,
        alloc: Global,
        checked: &Checked,
        left: &Expr,
        right: &Expr,
        op: Op,
        id: u32,
        token: u32,
    ) -> Result<Valued, AllocError>
        ensures value { IfOk result (λ v. v ≡ (expressions.two_low checked.now op (expressions.part_of checked.now left.now) (expressions.part_of checked.now right.now) id token self.old).value) }
        ensures out { OnOk result (self.new ≡ (expressions.two_low checked.now op (expressions.part_of checked.now left.now) (expressions.part_of checked.now right.now) id token self.old).out) }
    {
        let counter = Counter::Completed(right.id);
        let left = self.operand_at(alloc, checked, left)?;
        let right = self.operand_at(alloc, checked, right)?;
        let step = Step::Op {
            op,
            left,
            right: Some(right),
        };
        let had = made(checked, id, step, counter)?;
        Ok(valued(id, token, had))
    }

    // `&&` or `||`: the left operand in a temporary, and the right one too where it counts.
    #[cycle(expression)]
    fn choice(
        &mut self,
        alloc: Global,
        checked: &Checked,
        left: &Expr,
        right: &Expr,
        both: bool,
        id: u32,
        token: u32,
    ) -> Result<Valued, AllocError>
        ensures value { IfOk result (λ v. v ≡ (expressions.choice_low checked.now both (expressions.part_of checked.now left.now) (expressions.part_of checked.now right.now) id token self.old).value) }
        ensures out { OnOk result (self.new ≡ (expressions.choice_low checked.now both (expressions.part_of checked.now left.now) (expressions.part_of checked.now right.now) id token self.old).out) }
    {
        let v = self.value(alloc, checked, left)?;
        let temp = self.into_temp(checked, v, token)?;
        let node = self.node(checked, token, Counter::Completed(left.id))?;
        let before = self.begin(alloc);
        let v = self.value(alloc, checked, right)?;
        self.into_slot(checked, temp, v, token)?;
        self.choose(alloc, before, both, node, temp)?;
        Ok(valued(id, token, Had::Chosen(temp)))
    }

    // The object of a call, or slot 0 where no value is written. `Db` is no value.
    #[cycle(expression)]
    fn receiver(
        &mut self,
        alloc: Global,
        checked: &Checked,
        of: &Option<Boxed<Expr>>,
        named: Named,
        id: u32,
    ) -> Result<Received, AllocError>
        ensures value { IfOk result (λ r. r ≡ (expressions.received checked.now (mean.is_operation named) (option_map (expressions.part_of checked.now) of.now) id self.old).value) }
        ensures out { OnOk result (self.new ≡ (expressions.received checked.now (mean.is_operation named) (option_map (expressions.part_of checked.now) of.now) id self.old).out) }
    {
        if is_operation(named) {
            return Ok(Received {
                operand: Operand::Slot(0),
                counter: Counter::Begun(id),
            });
        }
        match of {
            None => Ok(Received {
                operand: Operand::Slot(0),
                counter: Counter::Begun(id),
            }),
            Some(of) => {
                let of = of.get();
                let operand = self.operand_at(alloc, checked, of)?;
                Ok(Received {
                    operand,
                    counter: Counter::Completed(of.id),
                })
            }
        }
    }

    // The arguments, each fitted to the type of its parameter.
    #[cycle(expression)]
    fn arguments(
        &mut self,
        alloc: Global,
        checked: &Checked,
        args: &[Expr],
        wanted: &[Static],
        before: Counter,
    ) -> Result<Arguments, AllocError>
        ensures operands { IfOk result (λ r. r.operands ≡ (expressions.arguments checked.now wanted.now 0 before (map (expressions.part_of checked.now) args.now) self.old).value.operands) }
        ensures counter { IfOk result (λ r. r.counter ≡ (expressions.arguments checked.now wanted.now 0 before (map (expressions.part_of checked.now) args.now) self.old).value.counter) }
        ensures out { OnOk result (self.new ≡ (expressions.arguments checked.now wanted.now 0 before (map (expressions.part_of checked.now) args.now) self.old).out) }
    {
        let mut operands = Items::new(alloc);
        let mut counter = before;
        let mut place: usize = 0;
        for arg in args {
            let operand = self.fitted_operand(alloc, checked, arg, wanted_at(wanted, place))?;
            operands.push(operand)?;
            counter = Counter::Completed(arg.id);
            place += 1;
        }
        Ok(Arguments { operands, counter })
    }

    // A call of a method of a class, of String, of `Db` or of a ResultSet.
    #[cycle(expression)]
    #[tactic(auto, using(crate::proofs::Heads::operands_of_parts))]
    fn call(
        &mut self,
        alloc: Global,
        checked: &Checked,
        args: &Items<Expr>,
        of: &Option<Boxed<Expr>>,
        id: u32,
        token: u32,
    ) -> Result<Valued, AllocError>
        ensures value { IfOk result (λ v. v ≡ (expressions.call_low checked.now (mean_facts.named_at checked.now.facts id) (option_map (expressions.part_of checked.now) of.now) (map (expressions.part_of checked.now) args.now) id token self.old).value) }
        ensures out { OnOk result (self.new ≡ (expressions.call_low checked.now (mean_facts.named_at checked.now.facts id) (option_map (expressions.part_of checked.now) of.now) (map (expressions.part_of checked.now) args.now) id token self.old).out) }
    {
        let named = named_at(&checked.facts, id);
        let received = self.receiver(alloc, checked, of, named, id)?;
        let wanted = params_of(&checked.facts, named);
        let args = operands(named, args.as_slice());
        let arguments = self.arguments(alloc, checked, args, wanted, received.counter)?;
        let had = called(checked, id, received.operand, arguments)?;
        Ok(valued(id, token, had))
    }
}
