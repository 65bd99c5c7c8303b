//! Both ends of a session, which exchange only bytes.
#![tactic(auto)]

mod ends;
pub mod law;
mod pair;
mod stage;
mod tell;

pub use pair::{Need, Pair};
pub use stage::Stage;
