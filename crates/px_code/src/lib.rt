//! Code in normal statements, where it is placed, and what it means.
#![tactic(auto)]

mod block;
mod cell;
mod class;
mod code;
mod counts;
mod event;
mod frame;
pub mod law;
mod method;
mod node;
mod placement;
mod plan;
mod reply;
mod side;
mod word;

pub use block::{Block, Blocks, Exit, Naming, Send, Statement};
pub use cell::{Cell, Keep, Part, SitePart};
pub use class::{Class, Field};
pub use code::{Code, Site};
pub use counts::{Counts, MethodCount, StatementCount};
pub use event::Event;
pub use frame::{Frame, Slot, Slots};
pub use method::{Method, Tree};
pub use node::{Counter, Node, NodeKind};
pub use placement::{Pins, Placement};
pub use plan::{Plan, Plans};
pub use reply::{Done, Reply, Shown};
pub use side::Side;
pub use word::{Operand, Word};
