//! What holds of the modes and of what a session is told.
ghost use Rattle.px_locks.specs.Laws.{ModesGoBothWays, AnswersAreOne};

/// A mode goes with another where the other goes with it.
pub fn modes_go_both_ways()
    ensures { ModesGoBothWays }
{}

/// The rule gives one answer: where sessions that hold have stamps of their own, two answers to the same wants are the same.
pub fn answers_are_one()
    ensures { AnswersAreOne }
{}
