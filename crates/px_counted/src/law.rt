//! What holds of the counters of lowered code.

ghost use Rattle.px_counted.specs.Laws.{CountsAreRuns};

/// Each statement of the code of a typed program runs as often as its counter tells.
pub fn counts_are_runs<Q, W>()
    ensures { CountsAreRuns Q W }
{}
