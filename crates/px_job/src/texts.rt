//! Texts in quotes.

ghost use Rattle.std.specs.Prelude.{◌≡◌, ◌≤◌, ◌<◌, ◌+◌, ◌++◌, List, ℕ, length, IfOk, Option, IfSome, false};
ghost use Rattle.std.specs.Option.{option_map};
ghost use Rattle.px_job.specs.Texts.{step_of, escaped_byte, text_from, text_of};

use std::alloc::{AllocError, Global};

/// What a byte is to the text in which it stands.
#[derive(Clone, Copy)]
pub(crate) enum Step {
    Byte(u8),
    Backslash,
    Close,
    Broken,
}

// What a byte is, right behind a backslash or not.
fn step_at(escaped: bool, byte: u8) -> Step
    ensures { result ≡ step_of escaped byte }
{
    match (escaped, byte) {
        (true, b'n') => Step::Byte(b'\n'),
        (true, b't') => Step::Byte(b'\t'),
        (true, b'"' | b'\\') => Step::Byte(byte),
        (true, _) => Step::Broken,
        (false, b'"') => Step::Close,
        (false, b'\\') => Step::Backslash,
        (false, _) => Step::Byte(byte),
    }
}

/// The length of the text that a word in quotes stands for.
pub(crate) fn text_len(word: &[u8]) -> Option<usize>
    ensures { result ≡ option_map length (text_of word.now) }
{
    match word {
        [b'"', body @ ..] => body_len(body),
        _ => None,
    }
}

fn body_len(body: &[u8]) -> Option<usize>
    ensures { result ≡ option_map length (text_from false body.now) }
{
    let mut rest = body;
    let mut escaped = false;
    let mut len = 0;
    while let [byte, more @ ..] = rest {
        match step_at(escaped, *byte) {
            Step::Byte(_) => {
                escaped = false;
                len += 1;
            }
            Step::Backslash => escaped = true,
            Step::Close if more.is_empty() => return Some(len),
            Step::Close | Step::Broken => return None,
        }
        rest = more;
    }
    None
}

/// The text that a word in quotes stands for.
pub(crate) fn read_text(alloc: Global, word: &[u8]) -> Result<Option<Vec<u8>>, AllocError>
    ensures { IfOk result (λ text. option_map (λ v. v.items) text ≡ text_of word.now) }
{
    match word {
        [b'"', body @ ..] => read_body(alloc, body),
        _ => Ok(None),
    }
}

fn read_body(alloc: Global, body: &[u8]) -> Result<Option<Vec<u8>>, AllocError>
    ensures { IfOk result (λ text. option_map (λ v. v.items) text ≡ text_from false body.now) }
{
    let mut rest = body;
    let mut escaped = false;
    let mut text = Vec::new(alloc);
    while let [byte, more @ ..] = rest {
        match step_at(escaped, *byte) {
            Step::Byte(byte) => {
                escaped = false;
                text.push(byte)?;
            }
            Step::Backslash => escaped = true,
            Step::Close if more.is_empty() => return Ok(Some(text)),
            Step::Close | Step::Broken => return Ok(None),
        }
        rest = more;
    }
    Ok(None)
}
