//! The types of slots, fields and results.

/// A type. Elements of arrays go by the number of their type: 0 for int, 1 for long, 2 for boolean,
/// 3 for String, and 4 and its class's number for objects.
#[derive(Clone, Copy, Debug, PartialEq, Eq)]
pub enum Ty {
    Int,
    Long,
    Bool,
    Text,
    /// An object of a class, by the class's number.
    Object(u16),
    Array(u16),
    /// The rows that a query gave.
    Rows,
}
