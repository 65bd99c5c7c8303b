//! What running a block comes to.
use px_value::Thrown;

#[derive(Clone, Copy, Debug, PartialEq, Eq)]
pub enum Step {
    /// The next block is at this side.
    Next,
    /// The next block is at the other side.
    Cross,
    /// A statement of the block threw.
    Threw(Thrown),
    /// The call has ended, with its reply at APP.
    Done,
}
