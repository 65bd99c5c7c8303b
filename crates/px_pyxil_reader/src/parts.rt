//! Names, and the parts of a line that are one word.
ghost use Rattle.std.specs.Prelude.{◌≡◌, IfOk};
ghost use Rattle.px_pyxil_reader.specs.Fitting.{is_class};
ghost use Rattle.px_pyxil_reader.specs.Reading.{Gives, class_of, dotted, member_of, element_of, op_of, side_of, u16_at, u32_at, slot_at, slot_or_none_at, side_at, class_at, member_at, element_at, op_at};

use crate::numbers::{slot_of, slot_or_none_of, u16_of, u32_of};
use crate::unread::Unread;
use crate::words::{cut_at, take_word};
use px_blocks::Side;
use px_lex::is_identifier;
use px_pyxil::{Element, Member};
use px_value::{Op, Text};
use std::alloc::{AllocError, Global};

fn text(alloc: Global, bytes: &[u8]) -> Result<Text, AllocError>
    ensures { IfOk result (λ text. text ≡ bytes.now) }
{
    Ok(Text::from_vec(Vec::from_slice(alloc, bytes)?))
}

fn is_class(name: &[u8]) -> bool
    ensures { result ≡ is_class name.now }
{
    is_identifier(name) && name != b"String".as_slice()
}

#[tactic(auto, unfolding(crate::specs::Reading::class_of))]
fn read_class(alloc: Global, word: &[u8]) -> Result<Text, Unread>
    ensures { Gives (λ x. x) result (class_of word.now) }
{
    if is_class(word) {
        Ok(text(alloc, word)?)
    } else {
        Err(Unread::NoLine)
    }
}

fn read_dotted(alloc: Global, class: &[u8], rest: &[u8]) -> Result<Member, Unread>
    ensures { Gives (λ x. x) result (dotted class.now rest.now) }
{
    match rest {
        [_, name @ ..] if is_class(class) && is_identifier(name) => {
            let class = text(alloc, class)?;
            let name = text(alloc, name)?;
            Ok(Member { class, name })
        }
        _ => Err(Unread::NoLine),
    }
}

#[tactic(auto, unfolding(crate::specs::Reading::member_of))]
fn read_member(alloc: Global, word: &[u8]) -> Result<Member, Unread>
    ensures { Gives (λ x. x) result (member_of word.now) }
{
    let (class, rest) = cut_at(b'.', word);
    read_dotted(alloc, class, rest)
}

#[tactic(auto, unfolding(crate::specs::Reading::element_of))]
fn read_element(alloc: Global, word: &[u8]) -> Result<Element, Unread>
    ensures { Gives (λ x. x) result (element_of word.now) }
{
    if word == b"int".as_slice() {
        Ok(Element::Int)
    } else if word == b"long".as_slice() {
        Ok(Element::Long)
    } else if word == b"boolean".as_slice() {
        Ok(Element::Bool)
    } else if word == b"String".as_slice() {
        Ok(Element::Text)
    } else {
        Ok(Element::Object(read_class(alloc, word)?))
    }
}

#[tactic(auto, unfolding(crate::specs::Reading::side_of))]
fn side_of(word: &[u8]) -> Option<Side>
    ensures { result ≡ side_of word.now }
{
    if word == b"APP".as_slice() {
        Some(Side::App)
    } else if word == b"DB".as_slice() {
        Some(Side::Db)
    } else {
        None
    }
}

#[tactic(auto, unfolding(crate::specs::Reading::op_of))]
fn op_of(word: &[u8]) -> Option<Op>
    ensures { result ≡ op_of word.now }
{
    if word == b"add".as_slice() {
        Some(Op::Add)
    } else if word == b"sub".as_slice() {
        Some(Op::Sub)
    } else if word == b"mul".as_slice() {
        Some(Op::Mul)
    } else if word == b"div".as_slice() {
        Some(Op::Div)
    } else if word == b"rem".as_slice() {
        Some(Op::Rem)
    } else if word == b"and".as_slice() {
        Some(Op::And)
    } else if word == b"or".as_slice() {
        Some(Op::Or)
    } else if word == b"xor".as_slice() {
        Some(Op::Xor)
    } else if word == b"shl".as_slice() {
        Some(Op::Shl)
    } else if word == b"shr".as_slice() {
        Some(Op::Shr)
    } else if word == b"ushr".as_slice() {
        Some(Op::Ushr)
    } else if word == b"lt".as_slice() {
        Some(Op::Lt)
    } else if word == b"le".as_slice() {
        Some(Op::Le)
    } else if word == b"gt".as_slice() {
        Some(Op::Gt)
    } else if word == b"ge".as_slice() {
        Some(Op::Ge)
    } else if word == b"eq".as_slice() {
        Some(Op::Eq)
    } else if word == b"ne".as_slice() {
        Some(Op::Ne)
    } else if word == b"neg".as_slice() {
        Some(Op::Neg)
    } else if word == b"inv".as_slice() {
        Some(Op::Inv)
    } else if word == b"not".as_slice() {
        Some(Op::Not)
    } else if word == b"widen".as_slice() {
        Some(Op::Widen)
    } else if word == b"narrow".as_slice() {
        Some(Op::Narrow)
    } else if word == b"concat".as_slice() {
        Some(Op::Concat)
    } else if word == b"equals".as_slice() {
        Some(Op::Equals)
    } else if word == b"length".as_slice() {
        Some(Op::Length)
    } else {
        None
    }
}

#[tactic(auto, unfolding(crate::specs::Reading::u16_at))]
pub(crate) fn take_u16(from: &[u8]) -> Result<(u16, &[u8]), Unread>
    ensures { Gives (λ x. (x.0, x.1.now)) result (u16_at from.now) }
{
    let (word, rest) = take_word(from)?;
    match u16_of(word) {
        Some(it) => Ok((it, rest)),
        None => Err(Unread::NoLine),
    }
}

#[tactic(auto, unfolding(crate::specs::Reading::u32_at))]
pub(crate) fn take_u32(from: &[u8]) -> Result<(u32, &[u8]), Unread>
    ensures { Gives (λ x. (x.0, x.1.now)) result (u32_at from.now) }
{
    let (word, rest) = take_word(from)?;
    match u32_of(word) {
        Some(it) => Ok((it, rest)),
        None => Err(Unread::NoLine),
    }
}

#[tactic(auto, unfolding(crate::specs::Reading::slot_at))]
pub(crate) fn take_slot(from: &[u8]) -> Result<(u16, &[u8]), Unread>
    ensures { Gives (λ x. (x.0, x.1.now)) result (slot_at from.now) }
{
    let (word, rest) = take_word(from)?;
    match slot_of(word) {
        Some(it) => Ok((it, rest)),
        None => Err(Unread::NoLine),
    }
}

#[tactic(auto, unfolding(crate::specs::Reading::slot_or_none_at))]
pub(crate) fn take_slot_or_none(from: &[u8]) -> Result<(Option<u16>, &[u8]), Unread>
    ensures { Gives (λ x. (x.0, x.1.now)) result (slot_or_none_at from.now) }
{
    let (word, rest) = take_word(from)?;
    match slot_or_none_of(word) {
        Some(it) => Ok((it, rest)),
        None => Err(Unread::NoLine),
    }
}

#[tactic(auto, unfolding(crate::specs::Reading::side_at))]
pub(crate) fn take_side(from: &[u8]) -> Result<(Side, &[u8]), Unread>
    ensures { Gives (λ x. (x.0, x.1.now)) result (side_at from.now) }
{
    let (word, rest) = take_word(from)?;
    match side_of(word) {
        Some(it) => Ok((it, rest)),
        None => Err(Unread::NoLine),
    }
}

#[tactic(auto, unfolding(crate::specs::Reading::op_at))]
pub(crate) fn take_op(from: &[u8]) -> Result<(Op, &[u8]), Unread>
    ensures { Gives (λ x. (x.0, x.1.now)) result (op_at from.now) }
{
    let (word, rest) = take_word(from)?;
    match op_of(word) {
        Some(it) => Ok((it, rest)),
        None => Err(Unread::NoLine),
    }
}

#[tactic(auto, unfolding(crate::specs::Reading::class_at))]
pub(crate) fn take_class(alloc: Global, from: &[u8]) -> Result<(Text, &[u8]), Unread>
    ensures { Gives (λ x. (x.0, x.1.now)) result (class_at from.now) }
{
    let (word, rest) = take_word(from)?;
    let it = read_class(alloc, word)?;
    Ok((it, rest))
}

#[tactic(auto, unfolding(crate::specs::Reading::member_at))]
pub(crate) fn take_member(alloc: Global, from: &[u8]) -> Result<(Member, &[u8]), Unread>
    ensures { Gives (λ x. (x.0, x.1.now)) result (member_at from.now) }
{
    let (word, rest) = take_word(from)?;
    let it = read_member(alloc, word)?;
    Ok((it, rest))
}

#[tactic(auto, unfolding(crate::specs::Reading::element_at))]
pub(crate) fn take_element(alloc: Global, from: &[u8]) -> Result<(Element, &[u8]), Unread>
    ensures { Gives (λ x. (x.0, x.1.now)) result (element_at from.now) }
{
    let (word, rest) = take_word(from)?;
    let it = read_element(alloc, word)?;
    Ok((it, rest))
}
