//! What points-to speaks of.

/// What the objects of one site have in common: a field, by its place in its class, or all elements.
#[derive(Clone, Copy, Debug, PartialEq, Eq, PartialOrd, Ord, Hash)]
pub enum Part {
    Field(u16),
    Elements,
}

/// A part of the objects of a site.
#[derive(Clone, Copy, Debug, PartialEq, Eq, PartialOrd, Ord, Hash)]
pub struct Pair {
    pub site: u16,
    pub part: Part,
}
