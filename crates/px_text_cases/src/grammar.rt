//! What of the grammar no clause says: that texts are read, which trees they have, and where the others are refused.
ghost use Rattle.std.specs.Prelude.{◌<◌, ◌^◌, length};

mod nesting;
mod places;
mod prefixes;
mod printed;
mod trees;

use px_parse::{ParseError, parse};
use std::alloc::{AllocError, Global};

// The line at which `parse` refuses a text; none where it finds a program.
fn parse_line(alloc: Global, text: &[u8]) -> Result<Option<u32>, AllocError>
    requires { length text.now < 2 ^ 31 }
{
    match parse(alloc, text) {
        Ok(_) => Ok(None),
        Err(ParseError::Syntax { line }) => Ok(Some(line)),
        Err(ParseError::NoMemory) => Err(AllocError),
    }
}

// The text between two others.
fn within(alloc: Global, before: &[u8], text: &[u8], behind: &[u8]) -> Result<Vec<u8>, AllocError> {
    let mut whole = Vec::from_slice(alloc, before)?;
    whole.extend_from_slice(text)?;
    whole.extend_from_slice(behind)?;
    Ok(whole)
}
