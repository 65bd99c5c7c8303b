//! The class in which something stands, among all classes.
use crate::classes::Classes;
use sqlite_items::Items;

#[derive(Drop)]
pub struct Home {
    pub classes: Classes,
    /// The number of the first method of each class, or of the next one where it has none.
    pub firsts: Items<u16>,
    /// The number of the class.
    pub this: usize,
}
