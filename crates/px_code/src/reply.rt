//! What a call answers.
use px_value::{Text, Thrown, Value};
use sqlite_items::Items;

#[derive(Debug, Drop)]
pub enum Reply {
    /// A void method returned.
    Void,
    Value(Value),
    Threw(Thrown),
}

/// What a caller sees of a call.
#[derive(Debug, Drop)]
pub struct Shown {
    pub reply: Reply,
    /// The printed lines.
    pub prints: Items<Text>,
}

/// A call that ended, as a history tells it.
#[derive(Debug, Drop)]
pub struct Done {
    pub reply: Reply,
    pub prints: Items<Text>,
    /// The part of the job that it ran under, from 0.
    pub part: u8,
    /// The average load, per mille.
    pub avg: u16,
    /// How often control changed sides.
    pub moves: u32,
    /// The length of all its messages in bytes, without those of `rehome`.
    pub bytes: u64,
    /// The length of the two messages that moved cells to new homes before it; 0 where none were sent.
    pub rehome: u64,
}
