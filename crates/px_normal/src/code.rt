//! A program in normal statements.
use crate::class::Class;
use crate::method::Method;
use crate::node::Node;
use px_value::{Kind, Schema, Statement};
use sqlite_items::Items;

/// An allocation expression.
#[derive(Clone, Copy, Debug, PartialEq, Eq)]
pub struct Site {
    /// What it makes.
    pub kind: Kind,
    /// The node that places its elements; objects have none, since their fields are placed.
    pub node: Option<u32>,
}

#[derive(Drop)]
pub struct Code {
    /// The number of the class Main.
    pub main: u16,
    /// By number from 0.
    pub classes: Items<Class>,
    /// By number from 1.
    pub methods: Items<Method>,
    /// By number from 1. Site 0 is the first object of a session.
    pub sites: Items<Site>,
    /// By number from 1: each method's own and those of its statements in order, then the fields,
    /// then the sites of arrays and rows.
    pub nodes: Items<Node>,
    /// The tables that the program declares.
    pub schema: Schema,
    /// What the calls of `Db` ask, by number from 1.
    pub statements: Items<Statement>,
}
