//! What a session tells of its calls.
ghost use Rattle.px_session.specs.Once.{CallsAreToldOnce};
ghost use Rattle.px_session.specs.Kept.{KeepIsNotTold};

/// What a session tells of its calls, with the number and the length of its messages, is fixed by its plan, its heap and the calls.
pub fn calls_are_told_once()
    ensures { CallsAreToldOnce }
{}

/// What the sides of a plan keep shows in nothing that a session tells: plans with the same code, placement and blocks have the same told of their calls.
pub fn keep_is_not_told()
    ensures { KeepIsNotTold }
{}
