//! Execution blocks: the pieces of code between two places where control may change sides.
use crate::side::Side;
use crate::word::{Operand, Word};
use sqlite_items::Items;

/// Names the cells of an object that are homed at a side, for the next message.
#[derive(Drop)]
pub struct Send {
    pub home: Side,
    pub object: Operand,
}

/// A send that was done, of an object by its place.
#[derive(Clone, Copy, Debug, PartialEq, Eq)]
pub struct Naming {
    pub home: Side,
    pub object: u32,
}

/// A statement of a block, with the send that follows it.
#[derive(Drop)]
pub struct Statement {
    pub node: u32,
    pub word: Word,
    pub send: Option<Send>,
}

/// What may come after the last statement of a block.
#[derive(Clone, Copy, Debug, PartialEq, Eq)]
pub enum Exit {
    /// The method returns.
    Return,
    /// The block of this number.
    Next(u32),
}

/// Statements that run at one side, one after the other.
#[derive(Drop)]
pub struct Block {
    /// By number from 1.
    pub method: u16,
    pub side: Side,
    pub statements: Items<Statement>,
    pub exit: Exit,
}

/// The blocks by number from 1; block 0 is the end of a call, at APP.
#[derive(Drop)]
pub struct Blocks {
    pub blocks: Items<Block>,
    /// The first block of each method, by its number from 1.
    pub firsts: Items<u32>,
}
