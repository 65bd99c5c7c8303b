//! What happens to the calls of sessions.
use crate::reply::Done;

/// An event of a history.
#[derive(Debug, Drop)]
pub enum Event {
    /// An attempt of a call begins. The calls of a session, and the attempts of a call, are numbered from 1.
    Begin {
        session: u16,
        call: u64,
        attempt: u8,
    },
    /// The session's call has ended.
    End {
        session: u16,
        done: Done,
    },
}
