//! What holds of runs with marks.

ghost use Rattle.px_counts.specs.Laws.{MarksChangeNothing};

/// A run with its marks is the run.
pub fn marks_change_nothing<Q, W>()
    ensures { MarksChangeNothing Q W }
{}
