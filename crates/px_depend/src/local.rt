//! The edges of control, and those of calls.
ghost use Rattle.std.specs.Prelude.{◌≡◌, ◌++◌, ◌∷◌, [], slice_get, IfOk, OnOk};
ghost use Rattle.px_normal.specs.First.{numbered};
ghost use Rattle.px_depend.specs.Depend.{edge};
ghost use Rattle.px_depend.specs.Places.{nodes_at};
ghost use Rattle.px_depend.specs.Local.{given_by, given_places, argument_at, arguments, results, call_edges, called, does_edges, line_edges, lines_edges, entry_one, entry_edges, local_edges};

use crate::edge::{Edge, End, Tie};
use crate::groups::Groups;
use crate::lines::{Does, Line};
use crate::places::Place;
use crate::sizes::size_of;
use px_normal::{Code, Method, Ty};
use std::alloc::{AllocError, Global};

fn add(from: End, to: u32, tie: Tie, size: u32, into: &mut Vec<Edge>) -> Result<(), AllocError>
    ensures { OnOk result (into.new.items ≡ into.old.items ++ edge from to tie size ∷ []) }
{
    into.push(Edge {
        from,
        to,
        tie,
        size,
    })?;
    Ok(())
}

fn add_given(line: &Line, into: &mut Vec<Place>) -> Result<(), AllocError>
    ensures { OnOk result (into.new.items ≡ into.old.items ++ given_by line.now.does line.now) }
{
    match line.does {
        Does::Gives => {
            into.push(Place {
                slot: line.method,
                node: line.node,
            })?;
            Ok(())
        }
        _ => Ok(()),
    }
}

// The statements that return a value, by the numbers of their methods.
fn given(alloc: Global, lines: &[Line]) -> Result<Vec<Place>, AllocError>
    ensures { IfOk result (λ places. places.items ≡ given_places lines.now) }
{
    let mut places = Vec::new(alloc);
    for line in lines {
        add_given(line, &mut places)?;
    }
    Ok(places)
}

fn argument(
    node: u32,
    to: u32,
    slot: u16,
    types: &[Ty],
    into: &mut Vec<Edge>,
) -> Result<(), AllocError>
    ensures { OnOk result (into.new.items ≡ into.old.items ++ argument_at node to slot (slice_get types.now slot)) }
{
    match sqlite_items::at(types, usize::from(slot)) {
        Some(ty) => add(End::Node(node), to, Tie::Argument(slot), size_of(*ty), into),
        None => Ok(()),
    }
}

fn arguments(
    node: u32,
    to: u32,
    params: u16,
    types: &[Ty],
    into: &mut Vec<Edge>,
) -> Result<(), AllocError>
    ensures { OnOk result (into.new.items ≡ into.old.items ++ arguments node to types.now params) }
{
    for before in 0..params {
        let slot = before + 1;
        argument(node, to, slot, types, into)?;
    }
    Ok(())
}

fn results(
    node: u32,
    ty: &Option<Ty>,
    backs: &[u32],
    into: &mut Vec<Edge>,
) -> Result<(), AllocError>
    ensures { OnOk result (into.new.items ≡ into.old.items ++ results node ty.now backs.now) }
{
    if let Some(ty) = ty {
        for back in backs {
            add(End::Node(*back), node, Tie::Result, size_of(*ty), into)?;
        }
    }
    Ok(())
}

fn call(node: u32, method: &Method, backs: &[u32], into: &mut Vec<Edge>) -> Result<(), AllocError>
    ensures { OnOk result (into.new.items ≡ into.old.items ++ call_edges node method.now backs.now) }
{
    add(End::Node(node), method.node, Tie::Enters, 0, into)?;
    arguments(
        node,
        method.node,
        method.params,
        method.slots.as_slice(),
        into,
    )?;
    results(node, &method.gives, backs, into)
}

fn calls(
    code: &Code,
    given: &Groups,
    node: u32,
    callee: u16,
    into: &mut Vec<Edge>,
) -> Result<(), AllocError>
    ensures { OnOk result (into.new.items ≡ into.old.items ++ called node (numbered code.now.methods callee) (nodes_at callee given.now)) }
{
    if callee == 0 {
        return Ok(());
    }
    match sqlite_items::at(code.methods.as_slice(), usize::from(callee) - 1) {
        Some(method) => call(node, method, given.at(callee), into),
        None => Ok(()),
    }
}

fn does(
    code: &Code,
    given: &Groups,
    node: u32,
    does: Does,
    into: &mut Vec<Edge>,
) -> Result<(), AllocError>
    ensures { OnOk result (into.new.items ≡ into.old.items ++ does_edges code.now given.now node does) }
{
    match does {
        Does::Asks => add(End::Db, node, Tie::Held, 0, into),
        Does::Calls(callee) => calls(code, given, node, callee, into),
        _ => Ok(()),
    }
}

fn line_edges(
    code: &Code,
    given: &Groups,
    line: &Line,
    into: &mut Vec<Edge>,
) -> Result<(), AllocError>
    ensures { OnOk result (into.new.items ≡ into.old.items ++ line_edges code.now given.now line.now) }
{
    add(End::Node(line.by), line.node, Tie::Held, 0, into)?;
    does(code, given, line.node, line.does, into)
}

fn lines_edges(
    code: &Code,
    given: &Groups,
    lines: &[Line],
    into: &mut Vec<Edge>,
) -> Result<(), AllocError>
    ensures { OnOk result (into.new.items ≡ into.old.items ++ lines_edges code.now given.now lines.now) }
{
    for line in lines {
        line_edges(code, given, line, into)?;
    }
    Ok(())
}

fn entry(method: &Method, into: &mut Vec<Edge>) -> Result<(), AllocError>
    ensures { OnOk result (into.new.items ≡ into.old.items ++ entry_one method.now) }
{
    if method.entry {
        add(End::App, method.node, Tie::Enters, 0, into)?;
    }
    Ok(())
}

fn entries(methods: &[Method], into: &mut Vec<Edge>) -> Result<(), AllocError>
    ensures { OnOk result (into.new.items ≡ into.old.items ++ entry_edges methods.now) }
{
    for method in methods {
        entry(method, into)?;
    }
    Ok(())
}

pub fn local_edges(
    alloc: Global,
    code: &Code,
    lines: &[Line],
    into: &mut Vec<Edge>,
) -> Result<(), AllocError>
    ensures { OnOk result (into.new.items ≡ into.old.items ++ local_edges code.now lines.now) }
{
    let places = given(alloc, lines)?;
    let given = Groups::new(alloc, places.as_slice())?;
    entries(code.methods.as_slice(), into)?;
    lines_edges(code, &given, lines, into)
}
