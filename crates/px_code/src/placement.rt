//! Where nodes are placed.
use crate::side::Side;
use sqlite_items::Items;

/// The side of each node, by number from 1.
#[derive(Drop)]
pub struct Placement {
    pub sides: Items<Side>,
}

/// The sides that are fixed, by the number of the node from 1.
#[derive(Drop)]
pub struct Pins {
    pub sides: Items<Option<Side>>,
}
