//! The partition graph of a program: what it costs that nodes are placed at two servers, and what runs at the database server.
#![tactic(auto)]

mod costs;
mod edge;
mod graph;
mod loads;
mod problem;
mod sides;

pub use costs::{cost_of, edge_cost, end_side};
pub use edge::{Edge, EdgeKind, End};
pub use graph::{Graph, Group};
pub use problem::is_problem;
pub use sides::{is_db, other_side, same_side, side_at};
