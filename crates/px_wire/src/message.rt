//! The messages of a session.
use crate::transfer::Transfer;
use crate::updates::Updates;

#[derive(Debug, Drop)]
pub enum Message {
    /// The other end goes on with a block.
    Transfer(Transfer),
    /// The call is over, and what it did is kept.
    Commit(Updates),
}
