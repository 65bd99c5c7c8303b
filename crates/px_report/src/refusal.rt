//! The lines that refuse a file.
ghost use Rattle.std.specs.Prelude.{◌≡◌, [], ◌∷◌, decimal, IfOk};
ghost use Rattle.px_report.specs.Lines.{line};

use crate::words::push_number;
use std::alloc::{AllocError, Global};

/// The line that refuses a file, by what the file is, the number of the line that is refused, and a code.
pub fn refusal_text(
    alloc: Global,
    file: &[u8],
    number: u32,
    code: &[u8],
) -> Result<Vec<u8>, AllocError>
    ensures { IfOk result (λ text. text.items ≡ line (file.now ∷ decimal number ∷ code.now ∷ [])) }
{
    let mut text = Vec::from_slice(alloc, file)?;
    text.extend_from_slice(b" ")?;
    push_number(&mut text, number)?;
    text.extend_from_slice(b" ")?;
    text.extend_from_slice(code)?;
    text.extend_from_slice(b"\n")?;
    Ok(text)
}
