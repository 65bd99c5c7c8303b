//! The values of literals, and the operators of signs.
ghost use Rattle.std.specs.Prelude.{◌≡◌, ◌%◌, ◌^◌};
ghost use Rattle.px_mean.specs.Facts.{op_of as mean_op_of, plus_of as mean_plus_of, prefix_of as mean_prefix_of};
ghost use Rattle.px_mean.specs.Expressions.{decimal_value, literal as mean_literal};
ghost use Rattle.px_mean.specs.Statements.{one as mean_one};
ghost use Rattle.px_lowering.specs.Expressions.{negated, choice_of as choice_of_sign};

use px_facts::Ty;
use px_ops::changed;
use px_tree::Sign;
use px_value::{Op, Value};

fn plus_of(left: Ty, right: Ty) -> Op
    ensures { result ≡ mean_plus_of left right }
{
    match (left, right) {
        (Ty::Text, _) | (_, Ty::Text) => Op::Concat,
        (_, _) => Op::Add,
    }
}

/// The operator of a sign between two operands of these types.
pub fn op_of(sign: Sign, left: Ty, right: Ty) -> Op
    ensures { result ≡ mean_op_of sign left right }
{
    match sign {
        Sign::Plus => plus_of(left, right),
        Sign::Minus => Op::Sub,
        Sign::Times => Op::Mul,
        Sign::Over => Op::Div,
        Sign::Rest => Op::Rem,
        Sign::And | Sign::Both => Op::And,
        Sign::Or | Sign::Either => Op::Or,
        Sign::Xor => Op::Xor,
        Sign::Shl => Op::Shl,
        Sign::Shr => Op::Shr,
        Sign::Ushr => Op::Ushr,
        Sign::Less => Op::Lt,
        Sign::AtMost => Op::Le,
        Sign::More => Op::Gt,
        Sign::AtLeast => Op::Ge,
        Sign::Equal => Op::Eq,
        Sign::Unequal => Op::Ne,
        Sign::Not => Op::Not,
        Sign::Inv => Op::Inv,
        Sign::ToInt => Op::Narrow,
        Sign::ToLong => Op::Widen,
    }
}

/// The operator of a prefix on a type, or none where the value stays as it is.
pub fn prefix_of(sign: Sign, of: Ty) -> Option<Op>
    ensures { result ≡ mean_prefix_of sign of }
{
    match (sign, of) {
        (Sign::Minus, _) => Some(Op::Neg),
        (Sign::Not, _) => Some(Op::Not),
        (Sign::Inv, _) => Some(Op::Inv),
        (Sign::ToInt, Ty::Long) => Some(Op::Narrow),
        (Sign::ToLong, Ty::Int) => Some(Op::Widen),
        (_, _) => None,
    }
}

/// Whether a sign is that of a choice: `&&` is true, `||` false.
pub fn choice_of(sign: Sign) -> Option<bool>
    ensures { result ≡ choice_of_sign sign }
{
    match sign {
        Sign::Both => Some(true),
        Sign::Either => Some(false),
        _ => None,
    }
}

/// The value of a literal behind a minus.
#[tactic(auto, unfolding(px_value::specs::Operators::apply))]
pub fn negative(value: &Value) -> Value
    ensures { result ≡ negated value.now }
{
    changed(Op::Neg, value)
}

/// What `++` adds to a local of this type.
pub fn one(ty: Ty) -> Value
    ensures { result ≡ mean_one ty }
{
    match ty {
        Ty::Long => Value::Long(1),
        _ => Value::Int(1),
    }
}

// The value of the digits, in its low 64 bits.
fn decimal_bits(digits: &[u8]) -> u64
    ensures { result ≡ decimal_value digits.now 0 % 2 ^ 64 }
{
    let mut bits = 0u64;
    for digit in digits {
        bits = bits
            .wrapping_mul(10)
            .wrapping_add(u64::from(digit.saturating_sub(48)));
    }
    bits
}

/// The value of an integer literal.
pub fn literal(digits: &[u8], long: bool) -> Value
    ensures { result ≡ mean_literal digits.now long }
{
    let bits = decimal_bits(digits);
    if long {
        Value::Long(bits.cast_signed())
    } else {
        Value::Int(((bits % (1 << 32)) as u32).cast_signed())
    }
}
