//! The pieces of a text.
ghost use Rattle.std.specs.Prelude.{◌≡◌, ◌≤◌, ◌<◌, ◌+◌, ◌++◌, ◌∷◌, [], List, ℕ, length, take, drop, true, false, IfOk};
ghost use Rattle.std.specs.List.{list_all};
ghost use Rattle.px_sql.specs.Spelling.{is_part, is_space};
ghost use Rattle.px_sql.specs.Reading.{pieces_of, begins_with_part, begins_with_space, ends_with_space, is_trimmed};

use crate::spelling::is_part;
use px_value::Text;
use sqlite_items::Items;
use std::alloc::{AllocError, Global};

/// Whether no space is first or last.
pub(crate) fn is_trimmed(text: &[u8]) -> bool
    ensures { result ≡ is_trimmed text.now }
{
    !begins_with_space(text) && !ends_with_space(text)
}

fn begins_with_space(text: &[u8]) -> bool
    ensures { result ≡ begins_with_space text.now }
{
    match text {
        [byte, ..] => *byte == b' ',
        [] => false,
    }
}

fn ends_with_space(text: &[u8]) -> bool
    ensures { result ≡ ends_with_space false text.now }
{
    let mut last = false;
    let mut rest = text;
    while let [byte, more @ ..] = rest {
        last = *byte == b' ';
        rest = more;
    }
    last
}

/// The longest runs of letters, digits, `_` and `$`, and each other byte that is no space.
pub(crate) fn pieces_of(alloc: Global, text: &[u8]) -> Result<Items<Text>, AllocError>
    ensures { IfOk result (λ pieces. pieces ≡ pieces_of text.now) }
{
    let mut pieces = Items::new(alloc);
    let mut rest = text;
    while !rest.is_empty() {
        if rest[0] == b' ' {
            rest = &rest[1..];
        } else {
            let (piece, more) = rest.split_at(piece_len(rest));
            pieces.push(Text::from_vec(piece.to_vec(alloc)?))?;
            rest = more;
        }
    }
    Ok(pieces)
}

// The length of the piece that the text begins with.
#[tactic(auto, using(crate::proofs::Runs::run_cut, crate::proofs::Runs::alone))]
fn piece_len(text: &[u8]) -> usize
    requires some { 0 < length text.now }
    requires front { begins_with_space text.now ≡ false }
    ensures some { 0 < result }
    ensures within { result ≤ length text.now }
    ensures piece { pieces_of text.now ≡ take result text.now ∷ pieces_of (drop result text.now) }
{
    if is_part(text[0]) { run_len(text) } else { 1 }
}

// How many bytes of a run the text begins with.
fn run_len(text: &[u8]) -> usize
    ensures within { result ≤ length text.now }
    ensures run { list_all is_part (take result text.now) ≡ true }
    ensures ends { begins_with_part (drop result text.now) ≡ false }
{
    let mut len = 0;
    while len < text.len() && is_part(text[len]) {
        len += 1;
    }
    len
}
