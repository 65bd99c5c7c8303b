//! Classes, as code needs them.
use crate::ty::Ty;
use px_value::Text;
use sqlite_items::Items;

#[derive(Drop)]
pub struct Field {
    pub name: Text,
    pub ty: Ty,
    pub node: u32,
}

#[derive(Drop)]
pub struct Class {
    pub name: Text,
    /// In the order of the source.
    pub fields: Items<Field>,
}
