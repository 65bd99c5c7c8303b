//! The operands and the types of operators.
ghost use Rattle.std.specs.Prelude.{◌≡◌};
ghost use Rattle.px_type_rules.specs.Operators as operators;

use px_facts::{Ty, same};
use px_tree::Sign;

/// Binary operators that take the same operands.
#[derive(Clone, Copy, Debug, PartialEq, Eq)]
pub enum Group {
    /// `+`.
    Add,
    /// `-`, `*`, `/` and `%`.
    Arithmetic,
    /// `&`, `|` and `^`.
    Bits,
    Shift,
    /// `<` and the like.
    Order,
    /// `==` and `!=`.
    Equality,
    /// `&&` and `||`.
    Logic,
    NotBinary,
}

pub fn group_of(sign: Sign) -> Group
    ensures { result ≡ operators.group_of sign }
{
    match sign {
        Sign::Plus => Group::Add,
        Sign::Minus | Sign::Times | Sign::Over | Sign::Rest => Group::Arithmetic,
        Sign::And | Sign::Or | Sign::Xor => Group::Bits,
        Sign::Shl | Sign::Shr | Sign::Ushr => Group::Shift,
        Sign::Less | Sign::AtMost | Sign::More | Sign::AtLeast => Group::Order,
        Sign::Equal | Sign::Unequal => Group::Equality,
        Sign::Both | Sign::Either => Group::Logic,
        Sign::Not | Sign::Inv | Sign::ToInt | Sign::ToLong => Group::NotBinary,
    }
}

pub fn is_minus(sign: Sign) -> bool
    ensures { result ≡ operators.is_minus sign }
{
    matches!(sign, Sign::Minus)
}

fn promoted(ty: Ty) -> Ty
    ensures { result ≡ operators.promoted ty }
{
    match ty {
        Ty::Int | Ty::Long => ty,
        _ => Ty::Unknown,
    }
}

fn both_promoted(left: Ty, right: Ty) -> Ty
    ensures { result ≡ operators.both_promoted left right }
{
    match (left, right) {
        (Ty::Int, Ty::Int) => Ty::Int,
        (Ty::Int | Ty::Long, Ty::Int | Ty::Long) => Ty::Long,
        _ => Ty::Unknown,
    }
}

/// Whether the prefix may stand before an operand of the type.
pub fn prefix_fits(sign: Sign, ty: Ty) -> bool
    ensures { result ≡ operators.prefix_fits sign ty }
{
    ty.is_unknown() || prefix_takes(sign, ty)
}

fn prefix_takes(sign: Sign, ty: Ty) -> bool
    ensures { result ≡ operators.prefix_takes sign ty }
{
    match sign {
        Sign::Minus | Sign::Inv | Sign::ToInt | Sign::ToLong => ty.is_number(),
        Sign::Not => ty.is_boolean(),
        _ => true,
    }
}

pub fn prefix_type(sign: Sign, ty: Ty) -> Ty
    ensures { result ≡ operators.prefix_type sign ty }
{
    match sign {
        Sign::Minus | Sign::Inv => promoted(ty),
        Sign::ToInt => Ty::Int,
        Sign::ToLong => Ty::Long,
        Sign::Not => Ty::Boolean,
        _ => Ty::Unknown,
    }
}

fn group_takes(group: Group, ty: Ty) -> bool
    ensures { result ≡ operators.group_takes group ty }
{
    match group {
        Group::Add => ty.is_number() || ty.is_boolean() || ty.is_text() || ty.is_null(),
        Group::Arithmetic | Group::Shift | Group::Order => ty.is_number(),
        Group::Bits => ty.is_number() || ty.is_boolean(),
        Group::Equality => !ty.is_void(),
        Group::Logic => ty.is_boolean(),
        Group::NotBinary => true,
    }
}

fn are_numbers(left: Ty, right: Ty) -> bool
    ensures { result ≡ operators.are_numbers left right }
{
    left.is_number() && right.is_number()
}

fn are_booleans(left: Ty, right: Ty) -> bool
    ensures { result ≡ operators.are_booleans left right }
{
    left.is_boolean() && right.is_boolean()
}

fn are_references(left: Ty, right: Ty) -> bool
    ensures { result ≡ operators.are_references left right }
{
    (left.is_null() || left.is_reference())
        && (right.is_null() || right.is_reference())
        && (left.is_null() || right.is_null() || same(left, right))
}

fn group_joins(group: Group, left: Ty, right: Ty) -> bool
    ensures { result ≡ operators.group_joins group left right }
{
    match group {
        Group::Add => are_numbers(left, right) || left.is_text() || right.is_text(),
        Group::Bits => are_numbers(left, right) || are_booleans(left, right),
        Group::Equality => {
            are_numbers(left, right) || are_booleans(left, right) || are_references(left, right)
        }
        _ => true,
    }
}

fn operand_fits(group: Group, ty: Ty) -> bool
    ensures { result ≡ operators.operand_fits group ty }
{
    ty.is_unknown() || group_takes(group, ty)
}

/// Whether operands of these types may stand beside the operator.
pub fn operands_fit(group: Group, left: Ty, right: Ty) -> bool
    ensures { result ≡ operators.operands_fit group left right }
{
    operand_fits(group, left)
        && operand_fits(group, right)
        && (left.is_unknown() || right.is_unknown() || group_joins(group, left, right))
}

fn sum_type(left: Ty, right: Ty) -> Ty
    ensures { result ≡ operators.sum_type left right }
{
    if left.is_text() || right.is_text() {
        Ty::Text
    } else {
        both_promoted(left, right)
    }
}

fn bits_type(left: Ty, right: Ty) -> Ty
    ensures { result ≡ operators.bits_type left right }
{
    if are_booleans(left, right) {
        Ty::Boolean
    } else {
        both_promoted(left, right)
    }
}

/// The type of a binary expression, also where its operands don't fit.
pub fn group_type(group: Group, left: Ty, right: Ty) -> Ty
    ensures { result ≡ operators.group_type group left right }
{
    match group {
        Group::Add => sum_type(left, right),
        Group::Arithmetic => both_promoted(left, right),
        Group::Bits => bits_type(left, right),
        Group::Shift => promoted(left),
        Group::Order | Group::Equality | Group::Logic => Ty::Boolean,
        Group::NotBinary => Ty::Unknown,
    }
}

pub fn compares_texts(group: Group, left: Ty, right: Ty) -> bool
    ensures { result ≡ operators.compares_texts group left right }
{
    match group {
        Group::Equality => left.is_text() && right.is_text(),
        _ => false,
    }
}

fn compound_takes(group: Group, ty: Ty) -> bool
    ensures { result ≡ operators.compound_takes group ty }
{
    match group {
        Group::Add => ty.is_number() || ty.is_text(),
        Group::Arithmetic | Group::Shift => ty.is_number(),
        Group::Bits => ty.is_number() || ty.is_boolean(),
        _ => false,
    }
}

fn assigned_fits(group: Group, ty: Ty) -> bool
    ensures { result ≡ operators.assigned_fits group ty }
{
    ty.is_unknown() || compound_takes(group, ty)
}

/// Whether a value may be assigned by the operator and `=`.
pub fn compound_fits(group: Group, to: Ty, from: Ty) -> bool
    ensures { result ≡ operators.compound_fits group to from }
{
    assigned_fits(group, to)
        && assigned_fits(group, from)
        && (to.is_unknown() || from.is_unknown() || same(to, from))
}
