//! The whole of a text.
use px_tree::{Class, TableDecl};
use sqlite_items::Items;

/// What a program declares.
#[derive(Drop)]
pub struct Declared {
    pub tables: Items<TableDecl>,
    pub classes: Items<Class>,
}
