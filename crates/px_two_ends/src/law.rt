//! What is proved of accepted programs at two ends.
ghost use Rattle.px_two_ends.specs.Own.{NodesAreOwn};
ghost use Rattle.px_two_ends.specs.Laws.{CompiledIsSplit, AcceptedIsPlacedWell, CallsRunAsPrograms, SessionsOfPrograms};

/// Statements whose nodes are numbered in order have nodes of their own.
pub fn nodes_are_own()
    ensures { NodesAreOwn }
{}

/// What is compiled has its sends, is cut into blocks, and prints at APP alone.
pub fn compiled_is_split()
    ensures { CompiledIsSplit }
{}

/// The code of an accepted program, with the sends that it needs, is placed well.
pub fn accepted_is_placed_well()
    ensures { AcceptedIsPlacedWell }
{}

/// A call at two ends does what the program means.
pub fn calls_run_as_programs<Q, W>()
    ensures { CallsRunAsPrograms Q W }
{}

/// All calls of a session leave both ends at rest, and read nothing stale.
pub fn sessions_of_programs<Q, W>()
    ensures { SessionsOfPrograms Q W }
{}
