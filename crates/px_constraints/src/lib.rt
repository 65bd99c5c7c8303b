//! Points-to: the least sets that constraints ask for, by a worklist of facts.
#![tactic(auto)]

mod facts;
mod lists;
mod search;
mod sorted;
mod system;

pub use facts::{Fact, Facts};
pub use lists::{Looks, Sites, Targets};
pub use search::{Search, solve};
pub use sorted::{Set, sets_of};
pub use system::{Cells, Constraint, Look, System, cell_in};
