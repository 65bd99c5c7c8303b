//! What happens to the calls of sessions.
ghost use Rattle.std.specs.Prelude.{◌≡◌};
ghost use Rattle.px_history.specs.State.{is_throw as throws};

use px_code::{Done, Reply};
use px_value::TableOp;

/// An event of a history.
#[derive(Drop)]
pub enum Event {
    /// An attempt of a call begins. The calls of a session, and the attempts of a call, are numbered from 1.
    Begin {
        session: u16,
        call: u64,
        attempt: u8,
    },
    /// An operation is done.
    Op {
        session: u16,
        op: TableOp,
    },
    /// The attempt ends, since an older session holds what its operation wants.
    Die {
        session: u16,
        op: TableOp,
        holder: u16,
    },
    /// The session's call has ended.
    End {
        session: u16,
        done: Done,
    },
    /// The call is given up.
    Drop {
        session: u16,
    },
}

pub fn is_throw(reply: &Reply) -> bool
    ensures { result ≡ throws reply.now }
{
    matches!(reply, Reply::Threw(_))
}
