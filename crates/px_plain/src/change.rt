//! What was written, so that it can be taken back.
use px_value::Value;

/// A cell that was written, and the value that stood in it.
#[derive(Drop)]
pub struct Change {
    pub object: u32,
    pub index: u32,
    pub old: Value,
}
