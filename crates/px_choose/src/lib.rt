//! The chooser: at which server each node of a partition graph is placed, under a budget.
#![tactic(auto)]

mod choosing;
mod edge_list;
mod flips;
pub mod law;
mod links;
mod moves;
mod numbers;
mod pins;
mod state;
mod sums;
mod turn;

pub use choosing::choose;
