//! The edges through what objects hold.
ghost use Rattle.std.specs.Prelude.{◌≡◌, ◌++◌, ◌∷◌, [], if◌then◌else◌, IfOk, OnOk};
ghost use Rattle.px_depend.specs.Objects.{Key, AreWriters, key_of, is_key, written_by, nodes_of, update_by, updates, part_edge, found_by, found, object_edges};

use crate::edge::{Edge, End, Tie};
use crate::sizes::{Home, home_of};
use px_flow_points::{Pair, Part, Touch};
use px_normal::Code;
use sqlite_items::Items;
use std::alloc::{AllocError, Global};
use std::collections::HashMap;
use std::marker::Model;

/// The nodes of what writes a pair, seen as what is written.
#[derive(Drop)]
struct Writers {
    writes: Vec<Touch>,
    // By site, and by field or none for elements.
    nodes: HashMap<(u16, Option<u16>), Items<u32>>,
}

impl Model for Writers {
    ghost use Rattle.std.specs.Prelude.{List};
    ghost use Rattle.px_flow_points.specs.declared.pairs.Touch.{Touch};
    ghost use Rattle.px_depend.specs.Objects.{AreWriters};

    ghost Value = { List Touch };

    ghost view = { λ w. w.writes.items };

    ghost invariant = { λ w. AreWriters w.nodes w.writes.items };
}

fn key_of(pair: Pair) -> (u16, Option<u16>)
    ensures { result ≡ key_of pair }
{
    match pair.part {
        Part::Field(field) => (pair.site, Some(field)),
        Part::Elements => (pair.site, None),
    }
}

fn add_writer(
    alloc: Global,
    key: (u16, Option<u16>),
    node: u32,
    nodes: &mut HashMap<(u16, Option<u16>), Items<u32>>,
) -> Result<(), AllocError>
    ensures { OnOk result ((other : Key) → written_by nodes.new other ≡ (if is_key key other then written_by nodes.old key ++ node ∷ [] else written_by nodes.old other)) }
{
    let mut group = nodes.remove(&key).unwrap_or(Items::new(alloc));
    group.push(node)?;
    nodes.insert(key, group)?;
    Ok(())
}

fn grouped(
    alloc: Global,
    writes: &[Touch],
) -> Result<HashMap<(u16, Option<u16>), Items<u32>>, AllocError>
    ensures { IfOk result (λ nodes. AreWriters nodes writes.now) }
{
    let mut nodes = HashMap::new(alloc);
    for touch in writes {
        add_writer(alloc, key_of(touch.pair), touch.node, &mut nodes)?;
    }
    Ok(nodes)
}

impl Writers {
    fn new(alloc: Global, writes: &[Touch]) -> Result<Writers, AllocError>
        ensures { IfOk result (λ w. w ≡ writes.now) }
    {
        let writes = Vec::from_slice(alloc, writes)?;
        let nodes = grouped(alloc, writes.as_slice())?;
        Ok(Writers { writes, nodes })
    }

    fn at(&self, key: (u16, Option<u16>)) -> &[u32]
        ensures { result.now ≡ nodes_of key self.now }
    {
        match self.nodes.get(&key) {
            Some(nodes) => nodes.as_slice(),
            None => &[],
        }
    }
}

fn update(home: Option<Home>, touch: &Touch, into: &mut Vec<Edge>) -> Result<(), AllocError>
    ensures { OnOk result (into.new.items ≡ into.old.items ++ update_by home touch.now) }
{
    if let Some(home) = home {
        into.push(Edge {
            from: End::Node(home.node),
            to: touch.node,
            tie: Tie::Home,
            size: home.size,
        })?;
    }
    Ok(())
}

fn updates(code: &Code, writes: &[Touch], into: &mut Vec<Edge>) -> Result<(), AllocError>
    ensures { OnOk result (into.new.items ≡ into.old.items ++ updates code.now writes.now) }
{
    for touch in writes {
        update(home_of(code, touch.pair.site, touch.pair.part), touch, into)?;
    }
    Ok(())
}

fn found_at(
    home: Option<Home>,
    touch: &Touch,
    nodes: &[u32],
    into: &mut Vec<Edge>,
) -> Result<(), AllocError>
    ensures { OnOk result (into.new.items ≡ into.old.items ++ found_by home touch.now nodes.now) }
{
    if let Some(home) = home {
        for node in nodes {
            into.push(Edge {
                from: End::Node(*node),
                to: touch.node,
                tie: Tie::Part(touch.pair.part),
                size: home.size,
            })?;
        }
    }
    Ok(())
}

fn found(
    code: &Code,
    writers: &Writers,
    reads: &[Touch],
    into: &mut Vec<Edge>,
) -> Result<(), AllocError>
    ensures { OnOk result (into.new.items ≡ into.old.items ++ found code.now writers.now reads.now) }
{
    for touch in reads {
        let home = home_of(code, touch.pair.site, touch.pair.part);
        found_at(home, touch, writers.at(key_of(touch.pair)), into)?;
    }
    Ok(())
}

pub fn object_edges(
    alloc: Global,
    code: &Code,
    writes: &[Touch],
    reads: &[Touch],
    into: &mut Vec<Edge>,
) -> Result<(), AllocError>
    ensures { OnOk result (into.new.items ≡ into.old.items ++ object_edges code.now writes.now reads.now) }
{
    let writers = Writers::new(alloc, writes)?;
    updates(code, writes, into)?;
    found(code, &writers, reads, into)
}
