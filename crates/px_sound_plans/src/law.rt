//! What is proved of the plan of code at a placement, and of calls at two ends.
ghost use Rattle.px_sound_plans.specs.Laws.{PlacedByMethod, PlansAreSound};
ghost use Rattle.px_sound_plans.specs.Runs.{FirstHeapFits, CallsRunAsCode, SessionsServed};

/// Each side keeps what its statements may read, and sends what they may write and the other side keeps.
pub fn placed_by_method()
    ensures { PlacedByMethod }
{}

/// The blocks into which such code is cut make a sound plan.
pub fn plans_are_sound()
    ensures { PlansAreSound }
{}

/// The first heap of a session fits.
pub fn first_heap_fits()
    ensures { FirstHeapFits }
{}

/// A call at two ends runs as the code.
pub fn calls_run_as_code<Q, W>()
    ensures { CallsRunAsCode Q W }
{}

/// All calls of a session leave both ends at rest, and read nothing stale.
pub fn sessions_served<Q, W>()
    ensures { SessionsServed Q W }
{}
