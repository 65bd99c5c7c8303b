//! What is found to be kept is what a side keeps.
ghost use Rattle.px_sync.specs.Law.{KeepsExactly};

/// By what points-to found, exactly the parts that a side keeps.
pub fn keeps_exactly()
    ensures { KeepsExactly }
{}
