//! The classes of a program, their members by name, and what else names may stand for.
use crate::table::Table;
use px_facts::Ty;
use px_tree::Access;
use px_value::Schema;
use sqlite_items::{Boxed, Items};

#[derive(Clone, Copy, Debug)]
pub struct FieldType {
    pub access: Access,
    pub ty: Ty,
}

#[derive(Drop)]
pub struct MethodType {
    pub access: Access,
    pub params: Items<Ty>,
    pub result: Ty,
}

/// The members of a type.
#[derive(Drop)]
pub struct Members {
    pub fields: Table<FieldType>,
    pub methods: Table<MethodType>,
}

#[derive(Drop)]
pub struct Classes {
    /// The place in the file of each class, by its name.
    pub numbers: Table<usize>,
    /// Of each class, in the order of the file.
    pub members: Items<Members>,
    pub library: Boxed<Library>,
}

/// The members of types that are no classes, and the tables.
#[derive(Drop)]
pub struct Library {
    /// The members of a String.
    pub text: Members,
    /// The members of an array.
    pub array: Members,
    /// The members of a result set.
    pub rows: Members,
    pub schema: Schema,
}
