//! The partition graph of code: its dependences, weighed by a profile.
#![tactic(auto)]

mod edges;
mod groups;
mod loads;
mod partition;
mod plan;
mod rates;
mod runs;
mod texts;
mod weights;
mod words;

pub use partition::graph;
pub use plan::{Plan, plan_part};
pub use rates::Rates;
pub use texts::{push_plan, push_profile};
pub use words::{NodeWord, print_pins, words_of};
