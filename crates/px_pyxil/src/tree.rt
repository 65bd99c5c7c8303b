//! PyxIL: code as trees of normal statements, each at its side, with the sends that follow them.
use crate::names::Member;
use crate::word::Word;
use px_blocks::{Send, Side};
use px_normal::Operand;
use sqlite_items::Items;

/// A node, and where it is placed.
#[derive(Clone, Copy, Debug, PartialEq, Eq)]
pub struct At {
    pub node: u32,
    pub side: Side,
}

/// Where a field is at home.
#[derive(Drop)]
pub struct Field {
    pub field: Member,
    pub side: Side,
}

/// Where the elements of the arrays or rows are at home that a site makes.
#[derive(Clone, Copy, Debug, PartialEq, Eq)]
pub struct Site {
    pub number: u16,
    pub side: Side,
}

#[cycle(tree)]
#[derive(Drop)]
pub enum Tree {
    Do {
        at: At,
        word: Word,
        /// What is sent right after the statement.
        send: Option<Send>,
    },
    If {
        at: At,
        test: Operand,
        yes: Items<Tree>,
        no: Items<Tree>,
    },
    /// `first` runs before each test.
    Loop {
        first: Items<Tree>,
        at: At,
        test: Operand,
        body: Items<Tree>,
    },
}

/// What a method is called, and how many slots it has.
#[derive(Drop)]
pub struct Head {
    pub at: At,
    pub method: Member,
    pub slots: u32,
}

#[derive(Drop)]
pub struct Method {
    pub head: Head,
    pub body: Items<Tree>,
}

#[derive(Drop)]
pub struct Pyxil {
    pub fields: Items<Field>,
    pub sites: Items<Site>,
    pub methods: Items<Method>,
}
