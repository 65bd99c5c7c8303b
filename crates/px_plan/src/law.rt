//! Which placements are compiled.
ghost use Rattle.px_plan.specs.Law.{PinnedExactly};

/// All prints are at APP exactly where no first one is at DB.
pub fn pinned_exactly()
    ensures { PinnedExactly }
{}
