//! What stands around a statement.
use px_facts::{Facts, Ty};
use px_tree::Method;
use std::alloc::Global;

#[derive(Clone, Copy)]
pub struct Around<'a> {
    pub alloc: Global,
    pub facts: &'a Facts,
    /// In the order of their numbers.
    pub methods: &'a [&'a Method],
    /// The type of the method's result.
    pub result: Ty,
    /// How many more frames there may be.
    pub left: u32,
}
