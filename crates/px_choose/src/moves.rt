//! Moves of whole methods. A move is made as a row of flips, and undone by turning them back.
ghost use Rattle.std.specs.Prelude.{◌≡◌, IfOk, OnOk, false, if◌then◌else◌};
ghost use Rattle.px_graph.specs.Problem.{IsProblem};
ghost use Rattle.px_choose.specs.Placements.{with_side, flipped, moved};
ghost use Rattle.px_choose.specs.Gains.{back};
ghost use Rattle.px_choose.specs.Choices.{is_better as is_better_than, first_move};
ghost use Rattle.px_choose.specs.Kept.{IsLinked, IsKept};
ghost use Rattle.px_choose.specs.Told.{told};

use crate::links::Links;
use crate::pins::is_free;
use crate::state::State;
use crate::turn::turn;
use px_code::Side;
use px_graph::{Graph, Group, same_side, side_at};
use std::alloc::{AllocError, Global};

// Whether a node goes elsewhere when it is put at a side.
fn goes(pins: &[Option<Side>], sides: &[Side], node: u32, side: Side) -> bool
    ensures { with_side pins.now node side sides.now ≡ (if result then flipped pins.now node sides.now else sides.now) }
{
    is_free(pins, node) && !same_side(side_at(sides, node), side)
}

// Puts a node at a side, if it is free, and notes it if it was elsewhere.
fn put(
    graph: &Graph,
    links: &Links,
    pins: &[Option<Side>],
    state: &mut State,
    node: u32,
    side: Side,
    turned: &mut Vec<u32>,
) -> Result<(), AllocError>
    requires problem { IsProblem graph.now pins.now }
    requires linked { IsLinked graph.now pins.now links.now }
    requires kept { IsKept graph.now pins.now state.old }
    ensures kept { OnOk result (IsKept graph.now pins.now state.new) }
    ensures sides { OnOk result (state.new.sides.items ≡ with_side pins.now node side state.old.sides.items) }
    ensures back { OnOk result (back pins.now turned.new.items state.new.sides.items ≡ back pins.now turned.old.items state.old.sides.items) }
{
    if !goes(pins, state.sides.as_slice(), node, side) {
        return Ok(());
    }
    turned.push(node)?;
    turn(graph, links, pins, state, node);
    Ok(())
}

// Puts the free ones of the nodes at a side, and gives those that went.
fn shift(
    alloc: Global,
    graph: &Graph,
    links: &Links,
    pins: &[Option<Side>],
    state: &mut State,
    nodes: &[u32],
    side: Side,
) -> Result<Vec<u32>, AllocError>
    requires problem { IsProblem graph.now pins.now }
    requires linked { IsLinked graph.now pins.now links.now }
    requires kept { IsKept graph.now pins.now state.old }
    ensures kept { OnOk result (IsKept graph.now pins.now state.new) }
    ensures sides { OnOk result (state.new.sides.items ≡ moved pins.now nodes.now side state.old.sides.items) }
    ensures back { IfOk result (λ turned. back pins.now turned.items state.new.sides.items ≡ state.old.sides.items) }
{
    let mut turned = Vec::new(alloc);
    for node in nodes {
        put(graph, links, pins, state, *node, side, &mut turned)?;
    }
    Ok(turned)
}

// Turns nodes back, the last one first.
fn unshift(graph: &Graph, links: &Links, pins: &[Option<Side>], state: &mut State, turned: &[u32])
    requires problem { IsProblem graph.now pins.now }
    requires linked { IsLinked graph.now pins.now links.now }
    requires kept { IsKept graph.now pins.now state.old }
    ensures kept { IsKept graph.now pins.now state.new }
    ensures sides { state.new.sides.items ≡ back pins.now turned.now state.old.sides.items }
{
    let mut count = turned.len();
    'turns: while count > 0 {
        count -= 1;
        turn(graph, links, pins, state, turned[count]);
    }
}

// Moves the nodes to a side, if that fits and is cheaper.
fn better_shift(
    alloc: Global,
    graph: &Graph,
    links: &Links,
    budget: u64,
    pins: &[Option<Side>],
    state: &mut State,
    nodes: &[u32],
    side: Side,
) -> Result<bool, AllocError>
    requires problem { IsProblem graph.now pins.now }
    requires linked { IsLinked graph.now pins.now links.now }
    requires kept { IsKept graph.now pins.now state.old }
    ensures kept { OnOk result (IsKept graph.now pins.now state.new) }
    ensures better { IfOk result (λ better. better ≡ is_better_than graph.now budget pins.now state.old.sides.items (moved pins.now nodes.now side state.old.sides.items)) }
    ensures sides { IfOk result (λ better. state.new.sides.items ≡ (if better then moved pins.now nodes.now side state.old.sides.items else state.old.sides.items)) }
{
    let before = state.cost;
    let turned = shift(alloc, graph, links, pins, state, nodes, side)?;
    if state.load <= budget && state.cost < before {
        return Ok(true);
    }
    unshift(graph, links, pins, state, turned.as_slice());
    Ok(false)
}

/// Makes the first move of a whole method that is better.
pub fn better_move(
    alloc: Global,
    graph: &Graph,
    links: &Links,
    budget: u64,
    pins: &[Option<Side>],
    state: &mut State,
    groups: &[Group],
) -> Result<bool, AllocError>
    requires problem { IsProblem graph.now pins.now }
    requires linked { IsLinked graph.now pins.now links.now }
    requires kept { IsKept graph.now pins.now state.old }
    ensures kept { OnOk result (IsKept graph.now pins.now state.new) }
    ensures first { IfOk result (λ better. first_move graph.now budget pins.now state.old.sides.items groups.now ≡ told better state.new.sides.items) }
    ensures stays { IfOk result (λ better. better ≡ false → state.new.sides.items ≡ state.old.sides.items) }
{
    for group in groups {
        let nodes = group.nodes.as_slice();
        if better_shift(alloc, graph, links, budget, pins, state, nodes, Side::App)? {
            return Ok(true);
        }
        if better_shift(alloc, graph, links, budget, pins, state, nodes, Side::Db)? {
            return Ok(true);
        }
    }
    Ok(false)
}
