//! Where nodes are placed.
use crate::block::Send;
use crate::side::Side;
use sqlite_items::Items;

/// The side of each node, and the send that follows its statement, by the node's number from 1.
#[derive(Drop)]
pub struct Placed {
    pub sides: Items<Side>,
    pub sends: Items<Option<Send>>,
}
