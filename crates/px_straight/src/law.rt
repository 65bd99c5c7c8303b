//! What holds of straight code.
ghost use Rattle.px_straight.specs.Laws.{StraightRunsAsCode, StraightOrLater, StraightIsWellFormed, StraightKeepsNumbers, StraightEntries};

/// Straight code does what the code does that it was made of, on every heap, and asks nothing.
pub fn straight_runs_as_code<Q, W>()
    ensures { StraightRunsAsCode Q W }
{}

/// Code that isn't straight gives the line of the first of its statements, in the order of nodes, that two ends don't take.
pub fn straight_or_later()
    ensures { StraightOrLater }
{}

/// Straight code is well formed where its code is typed and small.
pub fn straight_is_well_formed()
    ensures { StraightIsWellFormed }
{}

/// Straight code is its code part by part, so that all numbers stay.
pub fn straight_keeps_numbers()
    ensures { StraightKeepsNumbers }
{}

/// An entry is the method of its number.
pub fn straight_entries()
    ensures { StraightEntries }
{}
