//! Graphs, placements and pins from plain tables.
use px_code::{Pins, Placement, Side};
use px_graph::{Edge, EdgeKind, End, Graph, Group};
use sqlite_items::Items;
use std::alloc::{AllocError, Global};

/// The kind of an edge, its ends, and its weight.
pub type Line = (EdgeKind, End, u32, u64);

/// A graph as tables: the edges, the counts of the nodes, the nodes of each method.
#[derive(Clone, Copy)]
pub struct Tables {
    pub edges: &'static [Line],
    pub counts: &'static [u64],
    pub methods: &'static [&'static [u32]],
}

// Method node 1 with the query 2 and the statement 3, which writes the field 6; method node 4 with the statement 5, which reads the field.
pub const SIX: Tables = Tables {
    edges: &[
        (EdgeKind::Control, End::App, 1, 4),
        (EdgeKind::Control, End::Node(1), 2, 10),
        (EdgeKind::Control, End::Node(1), 3, 10),
        (EdgeKind::Control, End::Db, 2, 30),
        (EdgeKind::Control, End::Node(3), 4, 10),
        (EdgeKind::Control, End::Node(4), 5, 10),
        (EdgeKind::Control, End::Node(4), 4, 100),
        (EdgeKind::Data, End::Node(2), 3, 8),
        (EdgeKind::Data, End::Node(2), 3, 1),
        (EdgeKind::Data, End::Node(3), 5, 7),
        (EdgeKind::Update, End::Node(6), 3, 5),
    ],
    counts: &[0, 3, 2, 0, 5, 0],
    methods: &[&[1, 2, 3], &[4, 5]],
};

// Two nodes that are bound to each other and to DB, and two that are bound to APP.
pub const PAIR: Tables = Tables {
    edges: &[
        (EdgeKind::Control, End::Db, 1, 6),
        (EdgeKind::Control, End::Db, 2, 6),
        (EdgeKind::Data, End::Node(1), 2, 10),
        (EdgeKind::Control, End::App, 3, 5),
        (EdgeKind::Data, End::Node(3), 4, 1),
    ],
    counts: &[2, 3, 50, 50],
    methods: &[&[1, 2], &[3, 4]],
};

// Two nodes that would both be at DB, of which the second has more to gain.
pub const RIVALS: Tables = Tables {
    edges: &[
        (EdgeKind::Control, End::Db, 1, 5),
        (EdgeKind::Control, End::Db, 2, 9),
    ],
    counts: &[3, 3],
    methods: &[&[1], &[2]],
};

fn edges(alloc: Global, lines: &[Line]) -> Result<Items<Edge>, AllocError> {
    let mut edges = Items::new(alloc);
    for line in lines {
        let (kind, from, to, weight) = *line;
        edges.push(Edge {
            kind,
            from,
            to,
            weight,
        })?;
    }
    Ok(edges)
}

fn groups(alloc: Global, methods: &[&[u32]]) -> Result<Items<Group>, AllocError> {
    let mut groups = Items::new(alloc);
    for nodes in methods {
        groups.push(Group {
            nodes: Items::from_slice(alloc, *nodes)?,
        })?;
    }
    Ok(groups)
}

pub fn graph(alloc: Global, tables: &Tables) -> Result<Graph, AllocError> {
    Ok(Graph {
        edges: edges(alloc, tables.edges)?,
        counts: Items::from_slice(alloc, tables.counts)?,
        methods: groups(alloc, tables.methods)?,
    })
}

fn side(letter: u8) -> Option<Side> {
    match letter {
        b'A' => Some(Side::App),
        b'D' => Some(Side::Db),
        _ => None,
    }
}

/// `A` and `D` for each node.
pub fn placement(alloc: Global, letters: &str) -> Result<Placement, AllocError> {
    let mut sides = Items::new(alloc);
    for letter in letters.as_bytes() {
        sides.push(side(*letter).unwrap_or(Side::App))?;
    }
    Ok(Placement { sides })
}

/// `A` and `D` for a node that is pinned, and `-` for one that is free.
pub fn pins(alloc: Global, letters: &str) -> Result<Pins, AllocError> {
    let mut sides = Items::new(alloc);
    for letter in letters.as_bytes() {
        sides.push(side(*letter))?;
    }
    Ok(Pins { sides })
}

pub fn letters(alloc: Global, placement: &Placement) -> Result<String, AllocError> {
    let mut text = String::new(alloc);
    for side in placement.sides.as_slice() {
        text.push_str(match side {
            Side::App => "A",
            Side::Db => "D",
        })?;
    }
    Ok(text)
}
