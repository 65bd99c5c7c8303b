//! Words of digits, and the numbers that they write.

ghost use Rattle.std.specs.Prelude.{◌≡◌, ◌≤◌, ◌<◌, ◌+◌, ◌++◌, List, ℕ, length, IfOk, IfSome, true};
ghost use Rattle.std.specs.List.{list_all};
ghost use Rattle.px_job.specs.Words.{words_of};
ghost use Rattle.px_job.specs.Arguments.{is_digits};
ghost use Rattle.px_job.specs.Numbers.{number, within, are_digits, numbers_within};

use crate::arguments::is_digits;
use crate::words::split_word;
use px_outside::read_u64;
use sqlite_items::Items;
use std::alloc::{AllocError, Global};

/// The number that digits write. One past 64 bits, which every range leaves out, counts as their greatest.
pub(crate) fn read_number(word: &[u8]) -> u64
    ensures { result ≡ number word.now }
{
    read_u64(word).unwrap_or(u64::MAX)
}

/// The number of a word, where it is in the range.
pub(crate) fn read_within(least: u16, most: u16, word: &[u8]) -> Option<u16>
    ensures value { result ≡ within least most (number word.now) }
    ensures bounds { IfSome result (λ n. (least ≤ n) × (n ≤ most)) }
{
    let number = read_number(word);
    if u64::from(least) <= number && number <= u64::from(most) {
        Some(number as u16)
    } else {
        None
    }
}

/// Whether there is a word, and each is one of digits.
pub(crate) fn are_digits(line: &[u8]) -> bool
    ensures { result ≡ are_digits (words_of line.now) }
{
    match split_word(line) {
        Some((word, rest)) => is_digits(word) && all_digits(rest),
        None => false,
    }
}

fn all_digits(line: &[u8]) -> bool
    ensures { result ≡ list_all is_digits (words_of line.now) }
{
    let mut rest = line;
    while let Some((word, more)) = split_word(rest) {
        if !is_digits(word) {
            return false;
        }
        rest = more;
    }
    true
}

/// The numbers of the words, where each is in the range.
pub(crate) fn read_numbers(
    alloc: Global,
    least: u16,
    most: u16,
    line: &[u8],
) -> Result<Option<Items<u16>>, AllocError>
    ensures { IfOk result (λ numbers. numbers ≡ numbers_within least most (words_of line.now)) }
{
    let mut numbers = Items::new(alloc);
    let mut rest = line;
    while let Some((word, more)) = split_word(rest) {
        let Some(number) = read_within(least, most, word) else {
            return Ok(None);
        };
        numbers.push(number)?;
        rest = more;
    }
    Ok(Some(numbers))
}
