//! Numbers, the highest byte first.
ghost use Rattle.std.specs.Prelude.{◌≡◌, ◌≤◌, ◌<◌, ◌++◌, ◌∷◌, [], OnOk, length};
ghost use Rattle.px_wire.specs.Numbers.{u16_bytes, u32_bytes, u64_bytes};
ghost use Rattle.px_wire.specs.Reading.{Gives, u8_at, u16_at, u32_at, u64_at};

use crate::unread::Unread;
use byteorder::{BigEndian, ByteOrder};
use std::alloc::AllocError;

#[tactic(auto, unfolding(crate::specs::Numbers::u16_bytes))]
pub(crate) fn put_u16(out: &mut Vec<u8>, n: u16) -> Result<(), AllocError>
    ensures { OnOk result (out.new.items ≡ out.old.items ++ u16_bytes n) }
{
    let mut bytes = [0; 2];
    BigEndian::write_u16(&mut bytes, n);
    out.extend_from_slice(&bytes)
}

#[tactic(auto, unfolding(crate::specs::Numbers::u32_bytes))]
pub(crate) fn put_u32(out: &mut Vec<u8>, n: u32) -> Result<(), AllocError>
    ensures { OnOk result (out.new.items ≡ out.old.items ++ u32_bytes n) }
{
    let mut bytes = [0; 4];
    BigEndian::write_u32(&mut bytes, n);
    out.extend_from_slice(&bytes)
}

#[tactic(auto, unfolding(crate::specs::Numbers::u64_bytes))]
pub(crate) fn put_u64(out: &mut Vec<u8>, n: u64) -> Result<(), AllocError>
    ensures { OnOk result (out.new.items ≡ out.old.items ++ u64_bytes n) }
{
    let mut bytes = [0; 8];
    BigEndian::write_u64(&mut bytes, n);
    out.extend_from_slice(&bytes)
}

pub(crate) fn take_u8(from: &[u8]) -> Result<(u8, &[u8]), Unread>
    ensures { Gives (λ x. (x.0, x.1.now)) result (u8_at from.now) }
{
    match from {
        [] => Err(Unread::NoMessage),
        [byte, rest @ ..] => Ok((*byte, rest)),
    }
}

#[tactic(auto, unfolding(crate::specs::Reading::u16_at))]
pub(crate) fn take_u16(from: &[u8]) -> Result<(u16, &[u8]), Unread>
    ensures { Gives (λ x. (x.0, x.1.now)) result (u16_at from.now) }
{
    if from.len() < 2 {
        return Err(Unread::NoMessage);
    }
    let (front, rest) = from.split_at(2);
    let n = u16::from_be_bytes([front[0], front[1]]);
    Ok((n, rest))
}

#[tactic(auto, unfolding(crate::specs::Reading::u32_at))]
pub(crate) fn take_u32(from: &[u8]) -> Result<(u32, &[u8]), Unread>
    ensures { Gives (λ x. (x.0, x.1.now)) result (u32_at from.now) }
{
    if from.len() < 4 {
        return Err(Unread::NoMessage);
    }
    let (front, rest) = from.split_at(4);
    let n = u32::from_be_bytes([front[0], front[1], front[2], front[3]]);
    Ok((n, rest))
}

#[tactic(auto, unfolding(crate::specs::Reading::u64_at))]
pub(crate) fn take_u64(from: &[u8]) -> Result<(u64, &[u8]), Unread>
    ensures { Gives (λ x. (x.0, x.1.now)) result (u64_at from.now) }
{
    if from.len() < 8 {
        return Err(Unread::NoMessage);
    }
    let (front, rest) = from.split_at(8);
    let n = u64::from_be_bytes([
        front[0], front[1], front[2], front[3], front[4], front[5], front[6], front[7],
    ]);
    Ok((n, rest))
}
