//! One end of a session: its heap, its copy of the stack, and what it has written since control came.
#![tactic(auto)]

mod absorb;
mod carry;
mod emit;
mod entering;
mod first_heap;
mod half;
mod home;
pub mod law;
mod machine;
mod news;
mod next;
mod plans;
mod stack;
mod step;
mod stop;
mod take_in;
mod undo;

pub use absorb::AbsorbError;
pub use half::Half;
pub use step::Step;
