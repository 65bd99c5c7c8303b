//! How often the parts of a program ran.
use sqlite_items::Items;

#[derive(Clone, Copy, Debug, PartialEq, Eq)]
pub struct StatementCount {
    pub begun: u64,
    /// Completed normally (JLS 14.1).
    pub completed: u64,
}

#[derive(Clone, Copy, Debug, PartialEq, Eq)]
pub struct MethodCount {
    pub entered: u64,
    /// Of these, by a call of the job.
    pub by_job: u64,
    /// Its body reached its end without a `return`.
    pub ended: u64,
}

#[derive(Drop)]
pub struct Counts {
    /// By the number of a statement or an expression.
    pub statements: Items<StatementCount>,
    /// By number from 1.
    pub methods: Items<MethodCount>,
}
