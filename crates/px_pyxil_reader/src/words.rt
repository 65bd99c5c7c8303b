//! Words, with one space between each two.
ghost use Rattle.std.specs.Prelude.{◌≡◌, ◌≤◌, ◌++◌, length, take, drop};
ghost use Rattle.px_pyxil_reader.specs.Reading.{Gives, cut_at, word_at, is_end, end_at};

use crate::unread::Unread;

/// What stands before the first of these bytes, and the rest.
pub(crate) fn cut_at(byte: u8, bytes: &[u8]) -> (&[u8], &[u8])
    ensures { (result.0.now, result.1.now) ≡ cut_at byte bytes.now }
{
    let mut len = 0;
    while len < bytes.len() && bytes[len] != byte {
        len += 1;
    }
    bytes.split_at(len)
}

/// A word behind a space, and what stands behind the word.
#[tactic(auto, unfolding(crate::specs::Reading::word_at))]
pub(crate) fn take_word(from: &[u8]) -> Result<(&[u8], &[u8]), Unread>
    ensures { Gives (λ x. (x.0.now, x.1.now)) result (word_at from.now) }
{
    match from {
        [b' ', rest @ ..] => Ok(cut_at(b' ', rest)),
        _ => Err(Unread::NoLine),
    }
}

/// Nothing, where the line ends.
pub(crate) fn take_end(from: &[u8]) -> Result<(), Unread>
    ensures { Gives (λ x. x) result (end_at from.now) }
{
    match from {
        [] => Ok(()),
        _ => Err(Unread::NoLine),
    }
}
