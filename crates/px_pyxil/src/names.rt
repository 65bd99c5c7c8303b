//! What the text calls by name.
use px_value::Text;

/// A field or a method of a class.
#[derive(Drop)]
pub struct Member {
    pub class: Text,
    pub name: Text,
}

/// The type of an array's elements.
#[derive(Drop)]
pub enum Element {
    Int,
    Long,
    Bool,
    Text,
    /// Objects of the class of this name.
    Object(Text),
}
