//! Methods, as trees of normal statements.
use crate::ty::Ty;
use crate::word::{Operand, Word};
use px_value::Text;
use sqlite_items::Items;

#[cycle(tree)]
#[derive(Drop)]
pub enum Tree {
    Do {
        node: u32,
        word: Word,
    },
    If {
        node: u32,
        test: Operand,
        yes: Items<Tree>,
        no: Items<Tree>,
    },
    /// `first` runs before each test.
    Loop {
        first: Items<Tree>,
        node: u32,
        test: Operand,
        body: Items<Tree>,
    },
}

#[derive(Drop)]
pub struct Method {
    /// The class that declares it, by number.
    pub class: u16,
    pub name: Text,
    pub node: u32,
    /// Whether jobs may call it: a public method of Main.
    pub entry: bool,
    /// How many parameters it has; `this` is none.
    pub params: u16,
    /// None for a void method.
    pub gives: Option<Ty>,
    /// `this`, the parameters, the locals, the temporaries.
    pub slots: Items<Ty>,
    pub body: Items<Tree>,
}
