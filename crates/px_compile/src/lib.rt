//! From code and a placement to a plan: blocks, sends, and what each side keeps.
#![tactic(auto)]

mod blocks;
mod copying;
mod cut;
mod facts;
mod keep;
mod kept;
mod plan;
mod send;
mod sides;

pub use plan::compile;
