//! Calls, when their operands are there.
ghost use Rattle.std.specs.Prelude.{◌≡◌, slice_index_or, IfOk};
ghost use Rattle.px_mean.specs.Expressions as mean;
ghost use Rattle.px_mean.specs.Facts as mean_facts;
ghost use Rattle.px_lowering.specs.Expressions as expressions;

use crate::expression::{made, stands};
use crate::facts::named_at;
use crate::valued::{Had, Step};
use px_facts::{Checked, Named, Ty};
use px_normal::{Counter, Operand};
use px_tree::Expr;
use px_value::{Op, Value};
use sqlite_items::Items;
use std::alloc::AllocError;

/// The object of a call, and how often the call runs where it has no arguments.
#[derive(Drop)]
pub struct Received {
    pub operand: Operand,
    pub counter: Counter,
}

/// The arguments of a call, and how often the call runs.
#[derive(Drop)]
pub struct Arguments {
    pub operands: Items<Operand>,
    pub counter: Counter,
}

/// A query or an update.
pub fn is_operation(named: Named) -> bool
    ensures { result ≡ mean.is_operation named }
{
    matches!(named, Named::Query { .. } | Named::Update { .. })
}

/// The arguments that have values: not the text of an operation.
pub fn operands(named: Named, args: &[Expr]) -> &[Expr]
    ensures { result.now ≡ mean.operands named args.now }
{
    if is_operation(named) && !args.is_empty() {
        &args[1..]
    } else {
        args
    }
}

/// The type that the argument of this place is wanted to have.
pub fn wanted_at(wanted: &[Ty], place: usize) -> Ty
    ensures { result ≡ slice_index_or wanted.now place Ty.Unknown }
{
    match wanted.get(place) {
        Some(ty) => *ty,
        None => Ty::Unknown,
    }
}

// The first argument.
#[tactic(auto, using(crate::proofs::Heads::first_of_more))]
fn first(mut args: Items<Operand>) -> Operand
    ensures { result ≡ expressions.first_of args }
{
    let mut found = Operand::Literal(Value::Null);
    while let Some(operand) = args.pop() {
        found = operand;
    }
    found
}

// The statement of a call of what is named.
fn step_of(named: Named, of: Operand, args: Items<Operand>) -> Option<Step>
    ensures { result ≡ expressions.step_of named of args }
{
    match named {
        Named::Method(method) => Some(Step::Call { of, method, args }),
        Named::TextLength => Some(Step::Op {
            op: Op::Length,
            left: of,
            right: None,
        }),
        Named::TextEquals => Some(Step::Op {
            op: Op::Equals,
            left: of,
            right: Some(first(args)),
        }),
        Named::Query { number, site } => Some(Step::Query {
            statement: number,
            site,
            params: args,
        }),
        Named::Update { number } => Some(Step::Update {
            statement: number,
            params: args,
        }),
        Named::Next => Some(Step::Next { of }),
        Named::GetLong => Some(Step::Long {
            of,
            column: first(args),
        }),
        Named::GetString => Some(Step::Text {
            of,
            column: first(args),
        }),
        _ => None,
    }
}

/// The value of the call that has this number.
pub fn called(checked: &Checked, id: u32, of: Operand, args: Arguments) -> Result<Had, AllocError>
    ensures { IfOk result (λ h. h ≡ expressions.step_had checked.now id args.counter (expressions.step_of (mean_facts.named_at checked.now.facts id) of args.operands)) }
{
    let Arguments { operands, counter } = args;
    match step_of(named_at(&checked.facts, id), of, operands) {
        None => Ok(stands(Value::Null)),
        Some(step) => made(checked, id, step, counter),
    }
}
