//! A program as it is split.
use crate::block::Blocks;
use crate::cell::Keep;
use crate::code::Code;
use crate::placement::Placement;
use std::sync::Arc;

#[derive(Drop)]
pub struct Plan {
    pub code: Code,
    pub placement: Placement,
    pub blocks: Blocks,
    pub keep: Keep,
}

/// One plan for each part of a job. What keeps plans keeps a clone, so that no plan is copied.
pub type Plans = Arc<Vec<Plan>>;
