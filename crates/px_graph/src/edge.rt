//! What nodes have to do with one another.

#[derive(Clone, Copy, Debug, PartialEq, Eq)]
pub enum EdgeKind {
    /// Control passes along it, in a message where its ends are apart.
    Control,
    /// What its first end wrote is read at the second.
    Data,
    /// What its second end writes is at home where its first end is.
    Update,
}

/// Where an edge begins: at a server, or at a node by its number from 1.
#[derive(Clone, Copy, Debug, PartialEq, Eq)]
pub enum End {
    App,
    Db,
    Node(u32),
}

#[derive(Clone, Copy, Debug, PartialEq, Eq)]
pub struct Edge {
    pub kind: EdgeKind,
    pub from: End,
    /// The node that it leads to, by number from 1.
    pub to: u32,
    /// What it costs where its ends are at two sides: runs times `latency`, or runs times bytes times `perbyte`.
    pub weight: u64,
}
