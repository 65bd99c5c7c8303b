//! Parts of a text.
ghost use Rattle.std.specs.Prelude.{◌≡◌};
ghost use Rattle.px_lex.specs.Spelling.{spelled};

/// The bytes between two places. What is out of the text is left out.
pub fn spelling(bytes: &[u8], from: u32, to: u32) -> &[u8]
    ensures { result.now ≡ spelled bytes.now from to }
{
    let end = (to as usize).min(bytes.len());
    let start = (from as usize).min(end);
    &bytes[start..end]
}
