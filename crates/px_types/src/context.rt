//! Where a statement or an expression stands.
use crate::classes::Classes;
use px_facts::Ty;

/// The program's classes, and the class and the method in which something stands.
#[derive(Drop)]
pub struct Context {
    pub classes: Classes,
    /// The number of the class.
    pub this: usize,
    /// The type of the method's result.
    pub result: Ty,
}
