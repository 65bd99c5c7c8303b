//! What the nodes of code have to do with one another.
use px_flow_points::Part;

/// Where an edge begins: at a server, or at a node by its number from 1.
#[derive(Clone, Copy, Debug, PartialEq, Eq, PartialOrd, Ord)]
pub enum End {
    App,
    Db,
    Node(u32),
}

/// What passes along an edge, and how often.
#[derive(Clone, Copy, Debug, PartialEq, Eq, PartialOrd, Ord)]
pub enum Tie {
    /// Control, to a statement, as often as it runs.
    Held,
    /// Control, to a method, as often as it is called from there.
    Enters,
    /// The value of a slot, to a statement that uses it, as often as that runs.
    Slot(u16),
    /// An argument, to a method, as often as it is called from there. It goes by its slot there.
    Argument(u16),
    /// What a method returns, to a call, as often as that runs.
    Result,
    /// What is in a part of some objects, to a statement that reads it, as often as that runs.
    Part(Part),
    /// A part is at home where the edge begins: to a statement that writes it, as often as that runs.
    Home,
}

/// In order of the ends, then of the ties.
#[derive(Clone, Copy, Debug, PartialEq, Eq, PartialOrd, Ord)]
pub struct Edge {
    pub from: End,
    /// The node that it leads to, by number from 1.
    pub to: u32,
    pub tie: Tie,
    /// The bytes of a value that passes; 0 for control.
    pub size: u32,
}
