//! Cells that were written.

/// A cell: an object, and a place in it.
#[derive(Clone, Copy, Debug, PartialEq, Eq)]
pub struct Place {
    pub object: u32,
    pub index: u32,
}

/// The cells of a result set from 1 on, up to so many.
#[derive(Clone, Copy, Debug, PartialEq, Eq)]
pub struct Cells {
    pub object: u32,
    pub count: usize,
}
