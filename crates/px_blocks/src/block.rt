//! Execution blocks: the pieces of code between two places where control may change sides.
use crate::side::Side;
use px_normal::{Operand, Word};
use sqlite_items::Items;

/// Which cells of an object a send names: those whose fields are at home at APP, or at DB, or all.
#[derive(Clone, Copy, Debug, PartialEq, Eq)]
pub enum SendKind {
    App,
    Db,
    Native,
}

/// Names cells of an object for the next message.
#[derive(Drop)]
pub struct Send {
    pub kind: SendKind,
    pub object: Operand,
}

/// A send that was done, of an object by its place.
#[derive(Clone, Copy, Debug, PartialEq, Eq)]
pub struct Naming {
    pub kind: SendKind,
    pub object: u32,
}

/// What a statement of a block does.
#[derive(Drop)]
pub enum Deed {
    Does(Word),
    /// Chooses a branch of an `if`.
    Chooses(Operand),
    /// Tests whether a loop goes on, which counts a turn.
    Tests(Operand),
}

/// A statement of a block, with the send that follows it.
#[derive(Drop)]
pub struct Statement {
    pub node: u32,
    pub deed: Deed,
    pub send: Option<Send>,
}

/// What may come after the last statement of a block. Block 0 is the end of the method.
#[derive(Clone, Copy, Debug, PartialEq, Eq)]
pub enum Exit {
    /// The method ends.
    Return,
    /// The block of this number.
    Next(u32),
    /// One of two blocks, by the last statement's operand.
    Branch { yes: u32, no: u32 },
    /// The first block of a method, and the block after its end.
    Call { entry: u32, back: u32 },
}

/// Statements of one method that run at one side, one after the other.
#[derive(Drop)]
pub struct Block {
    /// By number from 1.
    pub method: u16,
    pub side: Side,
    pub statements: Items<Statement>,
    pub exit: Exit,
}

/// The blocks by number from 1.
#[derive(Drop)]
pub struct Blocks {
    pub blocks: Items<Block>,
    /// The first block of each method, by the method's number from 1; 0 where it has no statement.
    pub firsts: Items<u32>,
}
