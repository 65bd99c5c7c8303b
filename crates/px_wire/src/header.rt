//! The header of an object.
ghost use Rattle.std.specs.Prelude.{◌≡◌, ◌++◌, OnOk, ⊤};
ghost use Rattle.px_wire.specs.Spelling.{kind_bytes, header_bytes};
ghost use Rattle.px_wire.specs.Fitting.{KindIsInRange, HeaderIsInRange};
ghost use Rattle.px_wire.specs.Reading.{Gives, kind_of, kind_at, header_at};

use crate::number::{put_u16, put_u32, take_u8, take_u16, take_u32};
use crate::part::Part;
use crate::unread::Unread;
use px_value::{Header, Kind};
use std::alloc::{AllocError, Global};

fn put_kind(out: &mut Vec<u8>, kind: Kind) -> Result<(), AllocError>
    ensures bytes { OnOk result (out.new.items ≡ out.old.items ++ kind_bytes kind) }
    ensures in_range { OnOk result (KindIsInRange kind) }
{
    match kind {
        Kind::Object(class) => {
            out.push(0)?;
            put_u16(out, class)
        }
        Kind::Array(element) => {
            out.push(1)?;
            put_u16(out, element)
        }
        Kind::Rows(statement) => {
            out.push(2)?;
            put_u16(out, statement)
        }
    }
}

fn kind_of(tag: u8, number: u16) -> Option<Kind>
    ensures { result ≡ kind_of tag number }
{
    match tag {
        0 => Some(Kind::Object(number)),
        1 => Some(Kind::Array(number)),
        2 => Some(Kind::Rows(number)),
        _ => None,
    }
}

#[tactic(auto, unfolding(crate::specs::Reading::kind_at))]
fn take_kind(from: &[u8]) -> Result<(Kind, &[u8]), Unread>
    ensures { Gives (λ x. (x.0, x.1.now)) result (kind_at from.now) }
{
    let (tag, rest) = take_u8(from)?;
    let (number, rest) = take_u16(rest)?;
    match kind_of(tag, number) {
        Some(kind) => Ok((kind, rest)),
        None => Err(Unread::NoMessage),
    }
}

impl Part for Header {
    ghost bytes_of = { header_bytes };

    ghost part_at = { header_at };

    ghost has_spelling = { λ _. ⊤ };

    ghost is_in_range = { HeaderIsInRange };

    fn put(&self, out: &mut Vec<u8>) -> Result<(), AllocError> {
        put_kind(out, self.kind)?;
        put_u16(out, self.site)?;
        put_u32(out, self.length)
    }

    #[tactic(auto, unfolding(crate::specs::Reading::header_at))]
    fn take<'a>(_: Global, from: &'a [u8]) -> Result<(Self, &'a [u8]), Unread> {
        let (kind, rest) = take_kind(from)?;
        let (site, rest) = take_u16(rest)?;
        let (length, rest) = take_u32(rest)?;
        Ok((Header { kind, site, length }, rest))
    }
}
