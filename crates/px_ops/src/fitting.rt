//! Which operands an operator takes.
ghost use Rattle.std.specs.Prelude.{◌≡◌};
ghost use Rattle.px_ops.specs.Table.{op_number as mean_op_number, ty_number as mean_ty_number, is_joined, takes_types, is_fitting, fit_in};

use crate::table::OpRow;
use px_value::{Op, Ty};

// The number of an operator, by which two are told apart.
fn op_number(op: Op) -> u8
    ensures { result ≡ mean_op_number op }
{
    match op {
        Op::Add => 0,
        Op::Sub => 1,
        Op::Mul => 2,
        Op::Div => 3,
        Op::Rem => 4,
        Op::And => 5,
        Op::Or => 6,
        Op::Xor => 7,
        Op::Shl => 8,
        Op::Shr => 9,
        Op::Ushr => 10,
        Op::Lt => 11,
        Op::Le => 12,
        Op::Gt => 13,
        Op::Ge => 14,
        Op::Eq => 15,
        Op::Ne => 16,
        Op::Neg => 17,
        Op::Inv => 18,
        Op::Not => 19,
        Op::Widen => 20,
        Op::Narrow => 21,
        Op::Concat => 22,
        Op::Equals => 23,
        Op::Length => 24,
    }
}

fn ty_number(ty: Ty) -> u8
    ensures { result ≡ mean_ty_number ty }
{
    match ty {
        Ty::Int => 0,
        Ty::Long => 1,
        Ty::Bool => 2,
        Ty::Text => 3,
        Ty::Ref => 4,
    }
}

// Whether a value of the type can be joined to a text.
fn is_joined(ty: Ty) -> bool
    ensures { result ≡ is_joined ty }
{
    match ty {
        Ty::Int | Ty::Long | Ty::Bool | Ty::Text => true,
        Ty::Ref => false,
    }
}

fn takes_types(row: &OpRow, left: Ty, right: Ty) -> bool
    ensures { result ≡ takes_types row.now left right }
{
    match row.op {
        Op::Concat => {
            (ty_number(left) == ty_number(Ty::Text) && is_joined(right))
                || (ty_number(right) == ty_number(Ty::Text) && is_joined(left))
        }
        _ => ty_number(row.left) == ty_number(left) && ty_number(row.right) == ty_number(right),
    }
}

fn is_fitting(row: &OpRow, op: Op, left: Ty, right: Ty) -> bool
    ensures { result ≡ is_fitting op left right row.now }
{
    op_number(row.op) == op_number(op) && takes_types(row, left, right)
}

fn find(rows: &[OpRow], op: Op, left: Ty, right: Ty) -> Option<Ty>
    ensures { result ≡ fit_in op left right rows.now }
{
    match rows {
        [] => None,
        [first, rest @ ..] => {
            if is_fitting(first, op, left, right) {
                Some(first.gives)
            } else {
                find(rest, op, left, right)
            }
        }
    }
}

/// What the operator gives at these types by the first row that fits. A row of `Concat` fits two types of which one is a text
/// and none a reference, and every other row its own two alone.
pub fn fits<const N: usize>(table: &[OpRow; N], op: Op, left: Ty, right: Ty) -> Option<Ty>
    ensures { result ≡ fit_in op left right table.now }
{
    find(table.as_slice(), op, left, right)
}
