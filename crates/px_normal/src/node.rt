//! What is placed, and counted.

#[derive(Clone, Copy, Debug, PartialEq, Eq)]
pub enum NodeKind {
    /// The entry into a method.
    Method,
    /// A normal statement.
    Normal,
    Field,
    /// The elements of the arrays or rows that one site makes.
    Site,
}

/// The number in a run's counts that says how often a node ran.
#[derive(Clone, Copy, Debug, PartialEq, Eq)]
pub enum Counter {
    /// How often the statement or expression of this number was begun.
    Begun(u32),
    /// How often it completed normally (JLS 14.1, 15.6).
    Completed(u32),
    /// How often the method of this number was entered.
    Entered(u16),
    /// How often its body reached its end.
    ReachedEnd(u16),
}

#[derive(Clone, Copy, Debug, PartialEq, Eq)]
pub struct Node {
    pub kind: NodeKind,
    /// From 1.
    pub line: u32,
    /// The method that it stands in, by number; a field has none.
    pub method: Option<u16>,
    /// A method's and a normal statement's.
    pub counter: Option<Counter>,
}
