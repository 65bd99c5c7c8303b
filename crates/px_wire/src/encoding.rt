//! From a message to its bytes.
ghost use Rattle.std.specs.Prelude.{◌≡◌, IfOk, OnOk};
ghost use Rattle.px_wire.specs.Spelling.{spelling};
ghost use Rattle.px_wire.specs.Fitting.{HasSpelling, IsInRange};

use crate::message::Message;
use crate::transfer::put_transfer;
use crate::updates::put_updates;
use std::alloc::{AllocError, Global};

/// The one spelling of a message.
pub fn encode(alloc: Global, message: &Message) -> Result<Vec<u8>, AllocError>
    requires { HasSpelling message.now }
    ensures bytes { IfOk result (λ bytes. bytes.items ≡ spelling message.now) }
    // So the other end decodes the message from them.
    ensures in_range { OnOk result (IsInRange message.now) }
{
    let mut out = Vec::new(alloc);
    match message {
        Message::Transfer(transfer) => {
            out.push(1)?;
            put_transfer(&mut out, transfer)?;
        }
        Message::Commit(updates) => {
            out.push(4)?;
            put_updates(&mut out, updates)?;
        }
    }
    Ok(out)
}
