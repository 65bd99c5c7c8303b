//! Cells, and the parts of a heap that a side keeps.
use sqlite_items::Items;

/// A cell of a heap: the place of its object, and its index in it.
#[derive(Clone, Copy, Debug, PartialEq, Eq, PartialOrd, Ord)]
pub struct Cell {
    pub object: u32,
    pub index: u32,
}

/// What the objects of one site have in common: a field, by its place in its class, or all elements.
#[derive(Clone, Copy, Debug, PartialEq, Eq)]
pub enum Part {
    Field(u16),
    Elements,
}

/// A part of the objects that one allocation expression makes.
#[derive(Clone, Copy, Debug, PartialEq, Eq)]
pub struct SitePart {
    pub site: u16,
    pub part: Part,
}

/// Of which cells each side always has the newest value when it has control.
#[derive(Drop)]
pub struct Keep {
    pub app: Items<SitePart>,
    pub db: Items<SitePart>,
}
