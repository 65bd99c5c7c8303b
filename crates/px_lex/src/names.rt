//! Identifiers.
ghost use Rattle.std.specs.Prelude.{◌≡◌};
ghost use Rattle.std.specs.List.{list_all};
ghost use Rattle.px_lex.specs.Names.{is_identifier, is_word, is_word_byte};

use crate::keyword::is_reserved;
use crate::scan::{is_digit, is_letter};

fn is_word_byte(byte: u8) -> bool
    ensures { result ≡ is_word_byte byte }
{
    is_letter(byte) || is_digit(byte)
}

fn are_word_bytes(bytes: &[u8]) -> bool
    ensures { result ≡ list_all is_word_byte bytes.now }
{
    bytes.iter().all(|byte| is_word_byte(*byte))
}

/// Whether the bytes are a letter, `_` or `$`, and behind it such and digits.
pub fn is_word(bytes: &[u8]) -> bool
    ensures { result ≡ is_word bytes.now }
{
    match bytes {
        [] => false,
        [byte, rest @ ..] => is_letter(*byte) && are_word_bytes(rest),
    }
}

/// Whether the word is an identifier.
#[tactic(auto, unfolding(crate::specs::Names::is_identifier))]
pub fn is_identifier(word: &[u8]) -> bool
    ensures { result ≡ is_identifier word.now }
{
    is_word(word) && !is_reserved(word)
}
