//! Numbers, which have one spelling each.
ghost use Rattle.std.specs.Prelude.{◌≡◌, decimal, Option};
ghost use Rattle.std.specs.Fmt.{signed_decimal};
ghost use Rattle.std.specs.Str.{bytes_eq};
ghost use Rattle.px_pyxil_reader.specs.Reading.{u16_of, u32_of, int_of, long_of, slot_of, slot_or_none_of};

use itoa::{Buffer, Integer};
use px_outside::{read_i64, read_u64};

// Whether the number is spelled so.
fn is_spelled<I: Integer>(number: I, word: &[u8]) -> bool
    ensures { result ≡ bytes_eq (I.text number) word.now }
{
    Buffer::new().format(number).as_bytes() == word
}

#[tactic(auto, unfolding(crate::specs::Reading::u16_of))]
pub(crate) fn u16_of(word: &[u8]) -> Option<u16>
    ensures { result ≡ u16_of word.now }
{
    let number = (read_u64(word)? % (1 << 16)) as u16;
    if is_spelled(number, word) {
        Some(number)
    } else {
        None
    }
}

#[tactic(auto, unfolding(crate::specs::Reading::u32_of))]
pub(crate) fn u32_of(word: &[u8]) -> Option<u32>
    ensures { result ≡ u32_of word.now }
{
    let number = (read_u64(word)? % (1 << 32)) as u32;
    if is_spelled(number, word) {
        Some(number)
    } else {
        None
    }
}

#[tactic(auto, unfolding(crate::specs::Reading::int_of))]
pub(crate) fn int_of(word: &[u8]) -> Option<i32>
    ensures { result ≡ int_of word.now }
{
    let number = long_of(word)?;
    if i64::from(i32::MIN) <= number && number <= i64::from(i32::MAX) {
        Some(number as i32)
    } else {
        None
    }
}

#[tactic(auto, unfolding(crate::specs::Reading::long_of))]
pub(crate) fn long_of(word: &[u8]) -> Option<i64>
    ensures { result ≡ long_of word.now }
{
    let number = read_i64(word)?;
    if is_spelled(number, word) {
        Some(number)
    } else {
        None
    }
}

#[tactic(auto, unfolding(crate::specs::Reading::slot_of))]
pub(crate) fn slot_of(word: &[u8]) -> Option<u16>
    ensures { result ≡ slot_of word.now }
{
    match word {
        [b'%', digits @ ..] => u16_of(digits),
        _ => None,
    }
}

#[tactic(auto, unfolding(crate::specs::Reading::slot_or_none_of))]
pub(crate) fn slot_or_none_of(word: &[u8]) -> Option<Option<u16>>
    ensures { result ≡ slot_or_none_of word.now }
{
    if word == b"-".as_slice() {
        Some(None)
    } else {
        Some(Some(slot_of(word)?))
    }
}
