//! Words as operators.
ghost use Rattle.std.specs.Prelude.{◌≡◌, ◌+◌, ◌≤◌};
ghost use Rattle.px_words.specs.Words as spec;

use crate::lexeme::Word;
use px_tree::Sign;

/// Between two operands.
pub fn binary_sign(word: Word) -> Option<Sign>
    ensures { result ≡ spec.binary_sign word }
{
    match word {
        Word::Plus => Some(Sign::Plus),
        Word::Minus => Some(Sign::Minus),
        Word::Times => Some(Sign::Times),
        Word::Over => Some(Sign::Over),
        Word::Rest => Some(Sign::Rest),
        Word::And => Some(Sign::And),
        Word::Or => Some(Sign::Or),
        Word::Xor => Some(Sign::Xor),
        Word::Shl => Some(Sign::Shl),
        Word::Shr => Some(Sign::Shr),
        Word::Ushr => Some(Sign::Ushr),
        Word::Less => Some(Sign::Less),
        Word::AtMost => Some(Sign::AtMost),
        Word::More => Some(Sign::More),
        Word::AtLeast => Some(Sign::AtLeast),
        Word::Equal => Some(Sign::Equal),
        Word::Unequal => Some(Sign::Unequal),
        Word::Both => Some(Sign::Both),
        Word::Either => Some(Sign::Either),
        _ => None,
    }
}

/// How tightly a binary operator binds, the loosest first.
pub fn level(sign: Sign) -> u32
    ensures level { result ≡ spec.level sign }
    ensures small { result ≤ 10 }
{
    match sign {
        Sign::Either => 1,
        Sign::Both => 2,
        Sign::Or => 3,
        Sign::Xor => 4,
        Sign::And => 5,
        Sign::Equal | Sign::Unequal => 6,
        Sign::Less | Sign::AtMost | Sign::More | Sign::AtLeast => 7,
        Sign::Shl | Sign::Shr | Sign::Ushr => 8,
        Sign::Plus | Sign::Minus => 9,
        _ => 10,
    }
}

/// How tightly at least the operators of a right operand bind: those of one level are joined from the left.
pub fn right_level(sign: Sign) -> u32
    ensures { result ≡ spec.level sign + 1 }
{
    level(sign) + 1
}

/// Before an operand.
pub fn prefix_sign(word: Word) -> Option<Sign>
    ensures { result ≡ spec.prefix_sign word }
{
    match word {
        Word::Minus => Some(Sign::Minus),
        Word::Not => Some(Sign::Not),
        Word::Inv => Some(Sign::Inv),
        _ => None,
    }
}

/// The cast to a type of numbers.
pub fn cast_to(word: Word) -> Sign
    ensures { result ≡ spec.cast_to word }
{
    match word {
        Word::Int => Sign::ToInt,
        _ => Sign::ToLong,
    }
}

/// Between a variable and a value.
pub fn compound_sign(word: Word) -> Option<Sign>
    ensures { result ≡ spec.compound_sign word }
{
    match word {
        Word::PlusAssign => Some(Sign::Plus),
        Word::MinusAssign => Some(Sign::Minus),
        Word::TimesAssign => Some(Sign::Times),
        Word::OverAssign => Some(Sign::Over),
        Word::RestAssign => Some(Sign::Rest),
        Word::AndAssign => Some(Sign::And),
        Word::OrAssign => Some(Sign::Or),
        Word::XorAssign => Some(Sign::Xor),
        Word::ShlAssign => Some(Sign::Shl),
        Word::ShrAssign => Some(Sign::Shr),
        Word::UshrAssign => Some(Sign::Ushr),
        _ => None,
    }
}
