//! How far a call is.
use px_value::Thrown;

#[derive(Clone, Copy, Debug, PartialEq, Eq)]
pub enum Stage {
    /// No call is open.
    Idle,
    /// A call is open.
    Open,
    /// It has ended, perhaps by a throw.
    Ended(Option<Thrown>),
    /// `take_done` has told of it.
    Taken(Option<Thrown>),
    /// Memory ran out in it; only `roll_back` may follow.
    Broken,
}
