//! What is said to an operation on tables.
use px_value::Answer;

#[derive(Debug, Drop)]
pub enum Said {
    Answers(Answer),
    /// The call has asked too often.
    Out,
}
