//! Methods, as trees of normal statements.
use crate::word::Word;
use px_value::{Text, Ty};
use sqlite_items::Items;

#[derive(Drop)]
pub enum Tree {
    Do { node: u32, word: Word },
}

#[derive(Drop)]
pub struct Method {
    /// The class that declares it.
    pub class: u16,
    pub name: Text,
    pub node: u32,
    /// Whether jobs may call it: a public method of Main.
    pub entry: bool,
    /// How many parameters it has; `this` is none.
    pub params: u16,
    /// None for a void method.
    pub gives: Option<Ty>,
    /// `this`, the parameters, the locals, the temporaries.
    pub slots: Items<Ty>,
    pub body: Items<Tree>,
}
