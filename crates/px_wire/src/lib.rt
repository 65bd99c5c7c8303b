//! The bytes that the two ends of a session exchange.
#![tactic(auto)]

mod cell;
mod decoding;
mod encoding;
mod frame;
mod header;
pub mod law;
mod message;
mod number;
mod order;
mod part;
mod slot;
mod text;
mod transfer;
mod unread;
mod updates;
mod value;

pub use cell::CellAt;
pub use decoding::decode;
pub use encoding::encode;
pub use frame::Frame;
pub use message::Message;
pub use slot::SlotAt;
pub use transfer::Transfer;
pub use updates::Updates;
