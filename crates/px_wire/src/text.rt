//! Texts: two bytes of length, and the bytes.
ghost use Rattle.std.specs.Prelude.{◌≡◌, ◌≤◌, ◌<◌, ◌++◌, OnOk, length};
ghost use Rattle.std.specs.List.{list_all};
ghost use Rattle.std.specs.Char.{is_ascii};
ghost use Rattle.px_wire.specs.Spelling.{text_bytes};
ghost use Rattle.px_wire.specs.Fitting.{IsShortAscii};
ghost use Rattle.px_wire.specs.Reading.{Gives, is_text, text_at};

use crate::number::{put_u16, take_u16};
use crate::unread::Unread;
use px_value::{MAX_TEXT, Text};
use std::alloc::{AllocError, Global};

pub(crate) fn put_text(out: &mut Vec<u8>, text: &Text) -> Result<(), AllocError>
    requires { IsShortAscii text.now }
    ensures { OnOk result (out.new.items ≡ out.old.items ++ text_bytes text.now) }
{
    let bytes = text.as_slice();
    put_u16(out, bytes.len() as u16)?;
    out.extend_from_slice(bytes)
}

fn is_text(bytes: &[u8]) -> bool
    ensures { result ≡ is_text bytes.now }
{
    bytes.iter().all(|byte| byte.is_ascii())
}

#[tactic(auto, unfolding(crate::specs::Reading::text_at))]
pub(crate) fn take_text(alloc: Global, from: &[u8]) -> Result<(Text, &[u8]), Unread>
    ensures { Gives (λ x. (x.0, x.1.now)) result (text_at from.now) }
{
    let (len, rest) = take_u16(from)?;
    let len = len as usize;
    if len > MAX_TEXT {
        return Err(Unread::NoMessage);
    }
    if rest.len() < len {
        return Err(Unread::NoMessage);
    }
    let (bytes, rest) = rest.split_at(len);
    if !is_text(bytes) {
        return Err(Unread::NoMessage);
    }
    Ok((Text::from_vec(Vec::from_slice(alloc, bytes)?), rest))
}
