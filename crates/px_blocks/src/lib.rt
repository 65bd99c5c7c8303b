//! Code is cut into execution blocks, and running them in their order is the run of the code.
#![tactic(auto)]

mod block;
mod copying;
mod counting;
pub mod law;
mod laying;
mod pending;
mod placed;
mod shape;
mod side;
mod whole;

pub use block::{Block, Blocks, Deed, Exit, Naming, Send, SendKind, Statement};
pub use copying::copy_word;
pub use counting::{after, after_all};
pub use laying::{lay, lay_all, lay_body};
pub use pending::{Pending, before, closing};
pub use placed::Placed;
pub use shape::Shape;
pub use side::Side;
pub use whole::cut;
