//! What the walk finds of a statement or an expression.
ghost use Rattle.std.specs.Prelude.{◌≡◌, [], ◌∷◌, ◌++◌, OnOk};
ghost use Rattle.px_types.specs.Known as specs;

use px_facts::{Fact, Operation};
use sqlite_items::Items;
use std::alloc::AllocError;

/// What is known of a statement or an expression, numbers aside, and what a call of `Db` asks for.
#[derive(Drop)]
pub struct Node {
    pub fact: Fact,
    pub operation: Option<Operation>,
}

/// An expression or a statement that is no call of `Db`.
pub fn fact_only(fact: Fact) -> Node
    ensures { result ≡ specs.fact_only fact }
{
    Node {
        fact,
        operation: None,
    }
}

pub fn add_fact(nodes: &mut Items<Node>, fact: Fact) -> Result<(), AllocError>
    ensures { OnOk result (nodes.new ≡ nodes.old ++ specs.fact_only fact ∷ []) }
{
    nodes.push(fact_only(fact))
}
