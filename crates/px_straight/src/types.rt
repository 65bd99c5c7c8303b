//! Types and nodes.
ghost use Rattle.std.specs.Prelude.{◌≡◌, map, option_map, IfOk};
ghost use Rattle.px_straight.specs.Simple as specs;

use px_code::{Counter as SimpleCounter, Node as SimpleNode, NodeKind as SimpleKind};
use px_normal::{Counter, Node, NodeKind, Ty};
use px_value::Ty as Outer;
use sqlite_items::Items;
use std::alloc::{AllocError, Global};

pub fn simple_type(ty: Ty) -> Outer
    ensures { result ≡ specs.simple_type ty }
{
    match ty {
        Ty::Int => Outer::Int,
        Ty::Long => Outer::Long,
        Ty::Bool => Outer::Bool,
        Ty::Text => Outer::Text,
        Ty::Object(_) => Outer::Ref,
        Ty::Array(_) => Outer::Ref,
        Ty::Rows => Outer::Ref,
    }
}

pub fn simple_option(ty: Option<Ty>) -> Option<Outer>
    ensures { result ≡ option_map specs.simple_type ty }
{
    match ty {
        None => None,
        Some(ty) => Some(simple_type(ty)),
    }
}

pub fn simple_types(alloc: Global, types: &[Ty]) -> Result<Items<Outer>, AllocError>
    ensures { IfOk result (λ all. all ≡ map specs.simple_type types.now) }
{
    let mut all = Items::new(alloc);
    for ty in types {
        all.push(simple_type(*ty))?;
    }
    Ok(all)
}

fn simple_kind(kind: NodeKind) -> SimpleKind
    ensures { result ≡ specs.simple_kind kind }
{
    match kind {
        NodeKind::Method => SimpleKind::Method,
        NodeKind::Normal => SimpleKind::Normal,
        NodeKind::Field => SimpleKind::Field,
        NodeKind::Site => SimpleKind::Site,
    }
}

fn simple_counter(counter: Option<Counter>) -> Option<SimpleCounter>
    ensures { result ≡ option_map specs.simple_counter_of counter }
{
    match counter {
        None => None,
        Some(Counter::Begun(number)) => Some(SimpleCounter::Begun(number)),
        Some(Counter::Completed(number)) => Some(SimpleCounter::Completed(number)),
        Some(Counter::Entered(number)) => Some(SimpleCounter::Entered(number)),
        Some(Counter::ReachedEnd(number)) => Some(SimpleCounter::ReachedEnd(number)),
    }
}

fn simple_node(node: Node) -> SimpleNode
    ensures { result ≡ specs.simple_node_of node }
{
    SimpleNode {
        kind: simple_kind(node.kind),
        line: node.line,
        method: node.method,
        counter: simple_counter(node.counter),
    }
}

pub fn simple_nodes(alloc: Global, nodes: &[Node]) -> Result<Items<SimpleNode>, AllocError>
    ensures { IfOk result (λ all. all ≡ map specs.simple_node_of nodes.now) }
{
    let mut all = Items::new(alloc);
    for node in nodes {
        all.push(simple_node(*node))?;
    }
    Ok(all)
}
