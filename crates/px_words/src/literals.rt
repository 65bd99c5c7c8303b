//! What literals stand for.
ghost use Rattle.std.specs.Prelude.{◌≡◌, ◌-◌, false, take, drop, length, IfOk};
ghost use Rattle.px_words.specs.Literals as spec;

use sqlite_items::Items;
use std::alloc::{AllocError, Global};

/// Whether an integer literal ends in L or l.
pub fn is_long(spelling: &[u8]) -> bool
    ensures { result ≡ spec.is_long spelling.now }
{
    matches!(spelling, [.., b'L' | b'l'])
}

/// An integer literal without that letter.
pub fn digits(spelling: &[u8]) -> &[u8]
    ensures { result.now ≡ spec.digits_of spelling.now }
{
    if is_long(spelling) {
        &spelling[..spelling.len() - 1]
    } else {
        spelling
    }
}

// The byte that a backslash and a letter stand for.
fn escape(letter: u8) -> u8
    ensures { result ≡ spec.escape_of letter }
{
    match letter {
        b'n' => b'\n',
        b't' => b'\t',
        other => other,
    }
}

/// What stands between two quotes.
pub fn inside(spelling: &[u8]) -> &[u8]
    ensures { result.now ≡ take (length spelling.now - 2) (drop 1 spelling.now) }
{
    match spelling {
        [_, inside @ .., _] => inside,
        _ => &[],
    }
}

/// The bytes of a text whose escapes are read.
pub fn unescaped(alloc: Global, bytes: &[u8]) -> Result<Items<u8>, AllocError>
    ensures { IfOk result (λ text. text ≡ spec.text_from false bytes.now) }
{
    let mut text = Vec::new(alloc);
    let mut escaped = false;
    for byte in bytes {
        if escaped {
            text.push(escape(*byte))?;
            escaped = false;
        } else if *byte == b'\\' {
            escaped = true;
        } else {
            text.push(*byte)?;
        }
    }
    Ok(Items::from_vec(text))
}
