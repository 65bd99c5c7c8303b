//! From bytes to the message that they spell.
ghost use Rattle.std.specs.Prelude.{◌≡◌, ◌↔◌, IfOk, Some};
ghost use Rattle.px_wire.specs.declared.message.Message.{Message};
ghost use Rattle.px_wire.specs.Spelling.{spelling};
ghost use Rattle.px_wire.specs.Fitting.{HasSpelling, IsInRange};
ghost use Rattle.px_wire.specs.Reading.{Gives, transfer_message_at, commit_at, message_behind, message_at, message_of};

use crate::message::Message;
use crate::number::take_u8;
use crate::transfer::take_transfer;
use crate::unread::Unread;
use crate::updates::take_updates;
use std::alloc::{AllocError, Global};

#[tactic(auto, unfolding(crate::specs::Reading::transfer_message_at))]
fn take_transfer_message(alloc: Global, from: &[u8]) -> Result<(Message, &[u8]), Unread>
    ensures { Gives (λ x. (x.0, x.1.now)) result (transfer_message_at from.now) }
{
    let (transfer, rest) = take_transfer(alloc, from)?;
    Ok((Message::Transfer(transfer), rest))
}

#[tactic(auto, unfolding(crate::specs::Reading::commit_at))]
fn take_commit(alloc: Global, from: &[u8]) -> Result<(Message, &[u8]), Unread>
    ensures { Gives (λ x. (x.0, x.1.now)) result (commit_at from.now) }
{
    let (updates, rest) = take_updates(alloc, from)?;
    Ok((Message::Commit(updates), rest))
}

fn take_behind(alloc: Global, first: u8, from: &[u8]) -> Result<(Message, &[u8]), Unread>
    ensures { Gives (λ x. (x.0, x.1.now)) result (message_behind first from.now) }
{
    match first {
        1 => take_transfer_message(alloc, from),
        4 => take_commit(alloc, from),
        _ => Err(Unread::NoMessage),
    }
}

#[tactic(auto, unfolding(crate::specs::Reading::message_at))]
fn take_message(alloc: Global, from: &[u8]) -> Result<(Message, &[u8]), Unread>
    ensures { Gives (λ x. (x.0, x.1.now)) result (message_at from.now) }
{
    let (first, rest) = take_u8(from)?;
    take_behind(alloc, first, rest)
}

#[tactic(auto, unfolding(crate::specs::Reading::message_of))]
fn read_message(alloc: Global, bytes: &[u8]) -> Result<Message, Unread>
    ensures { Gives (λ message. message) result (message_of bytes.now) }
{
    let (message, rest) = take_message(alloc, bytes)?;
    if !rest.is_empty() {
        return Err(Unread::NoMessage);
    }
    Ok(message)
}

/// The message whose spelling the bytes are, or `None` where they are no message's.
pub fn decode(alloc: Global, bytes: &[u8]) -> Result<Option<Message>, AllocError>
    ensures { IfOk result (λ found. (message : Message) →
        (found ≡ Some message) ↔ (IsInRange message × HasSpelling message × (spelling message ≡ bytes.now))) }
{
    match read_message(alloc, bytes) {
        Ok(message) => Ok(Some(message)),
        Err(Unread::NoMessage) => Ok(None),
        Err(Unread::NoMemory) => Err(AllocError),
    }
}
