//! What is known of statements and expressions.
ghost use Rattle.std.specs.Prelude.{◌≡◌};
ghost use Rattle.std.specs.Option.{option_copied};
ghost use Rattle.px_mean.specs.Facts as mean;

use px_facts::{Element, Facts, Named, Operation, Ty};
use px_ops::Op;
use px_tree::Sign;
use px_value::Value;
use sqlite_items::at;

/// The static type of an expression, or of the local that a statement writes.
pub fn type_at(facts: &Facts, id: u32) -> Ty
    ensures { result ≡ mean.type_at facts.now id }
{
    match at(facts.nodes.as_slice(), id as usize) {
        Some(fact) => fact.ty,
        None => Ty::Unknown,
    }
}

/// What an expression names or makes, or the local that a statement writes.
pub fn named_at(facts: &Facts, id: u32) -> Named
    ensures { result ≡ mean.named_at facts.now id }
{
    match at(facts.nodes.as_slice(), id as usize) {
        Some(fact) => fact.named,
        None => Named::Nothing,
    }
}

/// The types of the fields of a class.
pub fn fields_of(facts: &Facts, class: u16) -> &[Ty]
    ensures { result.now ≡ mean.fields_of facts.now class }
{
    match at(facts.classes.as_slice(), usize::from(class)) {
        Some(class) => class.fields.as_slice(),
        None => &[],
    }
}

/// The types that arguments are wanted to have.
pub fn params_of(facts: &Facts, named: Named) -> &[Ty]
    ensures { result.now ≡ mean.params_of facts.now named }
{
    match named {
        Named::Method(method) => params_in(facts, method),
        Named::Query { number, site: _ } | Named::Update { number } => operands_in(facts, number),
        _ => &[],
    }
}

/// A call of `Db`, by its number from 1.
pub fn operation_at(facts: &Facts, number: u16) -> Option<&Operation>
    ensures { option_copied result ≡ mean.by_number facts.now.operations number }
{
    if number == 0 {
        return None;
    }
    at(facts.operations.as_slice(), usize::from(number) - 1)
}

fn operands_in(facts: &Facts, number: u16) -> &[Ty]
    ensures { result.now ≡ mean.operands_in (mean.by_number facts.now.operations number) }
{
    match operation_at(facts, number) {
        Some(operation) => operation.params.as_slice(),
        None => &[],
    }
}

fn params_in(facts: &Facts, method: u16) -> &[Ty]
    ensures { result.now ≡ mean.params_in (mean.by_number facts.now.methods method) }
{
    if method == 0 {
        return &[];
    }
    match at(facts.methods.as_slice(), usize::from(method) - 1) {
        Some(method) => method.params.as_slice(),
        None => &[],
    }
}

/// What a field or a local holds before it is written.
pub fn default_of(ty: Ty) -> Value
    ensures { result ≡ mean.default_of ty }
{
    match ty {
        Ty::Int => Value::Int(0),
        Ty::Long => Value::Long(0),
        Ty::Boolean => Value::Bool(false),
        _ => Value::Null,
    }
}

pub fn element_default(element: Element) -> Value
    ensures { result ≡ mean.element_default element }
{
    match element {
        Element::Int => Value::Int(0),
        Element::Long => Value::Long(0),
        Element::Boolean => Value::Bool(false),
        _ => Value::Null,
    }
}

/// `+` joins texts where an operand is a String.
pub fn plus_of(left: Ty, right: Ty) -> Op
    ensures { result ≡ mean.plus_of left right }
{
    match (left, right) {
        (Ty::Text, _) | (_, Ty::Text) => Op::Concat,
        (_, _) => Op::Add,
    }
}

/// The operator of a sign between two operands of these types.
pub fn op_of(sign: Sign, left: Ty, right: Ty) -> Op
    ensures { result ≡ mean.op_of sign left right }
{
    match sign {
        Sign::Plus => plus_of(left, right),
        Sign::Minus => Op::Sub,
        Sign::Times => Op::Mul,
        Sign::Over => Op::Div,
        Sign::Rest => Op::Rem,
        Sign::And | Sign::Both => Op::And,
        Sign::Or | Sign::Either => Op::Or,
        Sign::Xor => Op::Xor,
        Sign::Shl => Op::Shl,
        Sign::Shr => Op::Shr,
        Sign::Ushr => Op::Ushr,
        Sign::Less => Op::Lt,
        Sign::AtMost => Op::Le,
        Sign::More => Op::Gt,
        Sign::AtLeast => Op::Ge,
        Sign::Equal => Op::Eq,
        Sign::Unequal => Op::Ne,
        Sign::Not => Op::Not,
        Sign::Inv => Op::Inv,
        Sign::ToInt => Op::Narrow,
        Sign::ToLong => Op::Widen,
    }
}

/// The operator of a prefix on a type, or none where the value stays as it is.
pub fn prefix_of(sign: Sign, of: Ty) -> Option<Op>
    ensures { result ≡ mean.prefix_of sign of }
{
    match (sign, of) {
        (Sign::Minus, _) => Some(Op::Neg),
        (Sign::Not, _) => Some(Op::Not),
        (Sign::Inv, _) => Some(Op::Inv),
        (Sign::ToInt, Ty::Long) => Some(Op::Narrow),
        (Sign::ToLong, Ty::Int) => Some(Op::Widen),
        (_, _) => None,
    }
}
