//! Methods.
ghost use Rattle.std.specs.Prelude.{◌≡◌, ◌∷◌, ◌++◌, drop, length, map, IfOk, OnOk};
ghost use Rattle.px_lowering.specs.Types.{code_type as code_type_of};
ghost use Rattle.px_lowering.specs.Programs as programs;

use crate::draft::{Draft, line_at, next_node};
use crate::facts::{code_result, code_type};
use crate::locals::completes;
use px_facts::{Checked, MethodFact, Ty as Static};
use px_normal::{Counter, Method, Node, NodeKind, Ty, Word};
use px_tree::{self, Access};
use px_value::Text;
use sqlite_items::Items;
use std::alloc::{AllocError, Global};

/// A method that is lowered, and the nodes of the program so far.
#[derive(Drop)]
pub struct Lowered {
    pub method: Method,
    pub nodes: Items<Node>,
}

fn method_node(checked: &Checked, number: u16, m: &px_tree::Method) -> Node
    ensures { result ≡ programs.method_node checked.now number m.now }
{
    Node {
        kind: NodeKind::Method,
        line: line_at(checked.program.tokens.as_slice(), m.name.token),
        method: Some(number),
        counter: Some(Counter::Entered(number)),
    }
}

// The types behind that of `this`.
fn but_first(types: &[Static]) -> &[Static]
    ensures { result.now ≡ drop 1 types.now }
{
    match types {
        [] => &[],
        [_, rest @ ..] => rest,
    }
}

// The types of `this`, the parameters and the locals.
fn first_slots(alloc: Global, fact: &MethodFact) -> Result<Items<Ty>, AllocError>
    ensures { IfOk result (λ slots. slots ≡ programs.first_types fact.now) }
{
    let mut slots = Items::new(alloc);
    slots.push(Ty::Object(fact.class))?;
    let locals = but_first(fact.slots.as_slice());
    for ty in locals {
        slots.push(code_type(*ty)?)?;
    }
    Ok(slots)
}

// Before the body.
fn begin(
    alloc: Global,
    checked: &Checked,
    number: u16,
    m: &px_tree::Method,
    fact: &MethodFact,
    nodes: Items<Node>,
) -> Result<Draft, AllocError>
    ensures { IfOk result (λ out. out ≡ programs.begun checked.now number m.now fact.now nodes) }
{
    let mut nodes = nodes;
    nodes.push(method_node(checked, number, m))?;
    let slots = first_slots(alloc, fact)?;
    Ok(Draft {
        method: number,
        trees: Items::new(alloc),
        nodes,
        slots,
    })
}

impl Draft {
    // A body that can reach its end returns there.
    fn finish(
        &mut self,
        checked: &Checked,
        m: &px_tree::Method,
        completes: bool,
    ) -> Result<(), AllocError>
        ensures { OnOk result (self.new ≡ programs.ended checked.now m.now completes self.old) }
    {
        if completes {
            let counter = Counter::ReachedEnd(self.method);
            self.emit(checked, Word::Return(None), m.name.token, counter)?;
        }
        Ok(())
    }
}

// The body of a method.
fn body(
    alloc: Global,
    checked: &Checked,
    number: u16,
    m: &px_tree::Method,
    fact: &MethodFact,
    nodes: Items<Node>,
) -> Result<Draft, AllocError>
    ensures { IfOk result (λ out. out ≡ programs.lowered_body checked.now number m.now fact.now nodes) }
{
    let mut out = begin(alloc, checked, number, m, fact, nodes)?;
    out.statement(alloc, checked, fact.result, &m.body)?;
    out.finish(checked, m, completes(&m.body))?;
    Ok(out)
}

fn is_public(access: Access) -> bool
    ensures { result ≡ programs.is_public access }
{
    match access {
        Access::Public => true,
        _ => false,
    }
}

// Whether jobs may call a method of this class.
fn is_entry(access: Access, class: u16, main: u16) -> bool
    ensures { result ≡ programs.is_entry access class main }
{
    is_public(access) && class == main
}

/// A method of this number.
pub fn lower_method(
    alloc: Global,
    checked: &Checked,
    number: u16,
    m: &px_tree::Method,
    fact: &MethodFact,
    nodes: Items<Node>,
) -> Result<Lowered, AllocError>
    ensures { IfOk result (λ one. let o = programs.lowered_body checked.now number m.now fact.now nodes in one ≡ record { method = programs.method_of checked.now m.now fact.now (length nodes) o; nodes = o.nodes }) }
{
    let name = Vec::from_slice(alloc, m.name.bytes.as_slice())?;
    let node = next_node(&nodes)?;
    let params = fact.params.len();
    if params > u16::MAX as usize {
        return Err(AllocError);
    }
    let gives = code_result(fact.result)?;
    let Draft {
        nodes,
        slots,
        trees,
        ..
    } = body(alloc, checked, number, m, fact, nodes)?;
    Ok(Lowered {
        method: Method {
            class: fact.class,
            name: Text::from_vec(name),
            node,
            entry: is_entry(m.access, fact.class, checked.facts.main.class),
            params: params as u16,
            gives,
            slots,
            body: trees,
        },
        nodes,
    })
}
