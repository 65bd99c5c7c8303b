//! Where comments and string literals end, for each place of a text at which one may begin.
//! The text is read once, from its end, so that a scan that fails is never tried again.
ghost use Rattle.std.specs.Prelude.{◌≡◌, ◌<◌, ◌^◌, [], length, drop, IfOk};
ghost use Rattle.px_lex.specs.Scanning.{on_next, next_of, shifted, Within};
ghost use Rattle.px_lex.specs.Pieces.{closing_of};
ghost use Rattle.px_lex.specs.Ahead.{answer_in, ahead_of, extended, closings_of, IsSmall};

use crate::scan::{Next, Scan, advance, peek};
use std::alloc::{AllocError, Global};

/// How far each scan that may fail goes in one suffix of a text.
#[derive(Clone, Copy)]
pub struct Ahead {
    line: Option<u32>,
    block: Option<u32>,
    star: Option<u32>,
    text: Option<u32>,
    escape: Option<u32>,
}

/// At the end of a text.
#[tactic(auto, unfolding(crate::specs::Scanning::scan_of))]
fn at_end() -> Ahead
    ensures { result ≡ ahead_of [] }
{
    Ahead {
        line: Some(0),
        block: None,
        star: None,
        text: None,
        escape: None,
    }
}

fn answer(ahead: &Ahead, scan: Scan) -> Option<u32>
    ensures { result ≡ answer_in ahead.now scan }
{
    match scan {
        Scan::Line => ahead.line,
        Scan::Block => ahead.block,
        Scan::Star => ahead.star,
        Scan::Text => ahead.text,
        Scan::Escape => ahead.escape,
        Scan::Word | Scan::Digits => None,
    }
}

fn one_more(reached: Option<u32>) -> Option<u32>
    requires { Within reached (2 ^ 31) }
    ensures { result ≡ shifted 1 reached }
{
    match reached {
        Some(n) => Some(n + 1),
        None => None,
    }
}

// How far a scan goes from this byte, by the answers behind it.
fn from_byte(scan: Scan, byte: u8, behind: &Ahead) -> Option<u32>
    requires { IsSmall behind.now }
    ensures { result ≡ on_next (next_of scan byte) (answer_in behind.now) }
{
    match advance(scan, byte) {
        Next::On(more) => one_more(answer(behind, more)),
        Next::Last => Some(1),
        Next::Before => Some(0),
        Next::Never => None,
    }
}

fn extend(byte: u8, behind: &Ahead) -> Ahead
    requires { IsSmall behind.now }
    ensures { result ≡ extended byte behind.now }
{
    Ahead {
        line: from_byte(Scan::Line, byte, behind),
        block: from_byte(Scan::Block, byte, behind),
        star: from_byte(Scan::Star, byte, behind),
        text: from_byte(Scan::Text, byte, behind),
        escape: from_byte(Scan::Escape, byte, behind),
    }
}

// How far the comment or string literal goes that the bytes begin with.
fn closing(bytes: &[u8], behind: &Ahead, beyond: &Ahead) -> Option<u32>
    requires behind { behind.now ≡ ahead_of (drop 1 bytes.now) }
    requires beyond { beyond.now ≡ ahead_of (drop 2 bytes.now) }
    ensures { result ≡ closing_of bytes.now }
{
    match (peek(bytes, 0), peek(bytes, 1)) {
        (b'"', _) => behind.text,
        (b'/', b'/') => beyond.line,
        (b'/', b'*') => beyond.block,
        _ => None,
    }
}

/// For each place of a text, how far the comment or string literal goes behind its opening
/// bytes, if one begins there and ends well.
pub fn closings(alloc: Global, bytes: &[u8]) -> Result<Vec<Option<u32>>, AllocError>
    requires { length bytes.now < 2 ^ 31 }
    ensures { IfOk result (λ closings. closings.items ≡ closings_of bytes.now) }
{
    let mut closings = vec![in alloc; None; bytes.len()]?;
    let mut behind = at_end();
    let mut beyond = at_end();
    let mut at = bytes.len();
    while at > 0 {
        at -= 1;
        closings[at] = closing(&bytes[at..], &behind, &beyond);
        beyond = behind;
        behind = extend(bytes[at], &behind);
    }
    Ok(closings)
}
