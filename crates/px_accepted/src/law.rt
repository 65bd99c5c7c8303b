//! What holds of the code of accepted programs.

ghost use Rattle.px_accepted.specs.Laws.{AcceptedKeepsMeaning, AcceptedIsNumbered, AcceptedCountsAreRuns};
ghost use Rattle.px_accepted.specs.Laws.{AcceptedCodeIsTyped, AcceptedEntriesAreMethods, AcceptedNodesAreInOrder};
ghost use Rattle.px_accepted.specs.Limits.{AcceptedHasFewSlots, AcceptedKeepsLimits};

/// The code of an accepted program does what the program does.
pub fn accepted_keeps_meaning<Q, W>()
    ensures { AcceptedKeepsMeaning Q W }
{}

/// No two statements or expressions of an accepted program have one number.
pub fn accepted_is_numbered()
    ensures { AcceptedIsNumbered }
{}

/// The code of an accepted program is typed.
pub fn accepted_code_is_typed()
    ensures { AcceptedCodeIsTyped }
{}

/// Each entry of an accepted program is a method that jobs may call, with the entry's parameters and
/// its result.
pub fn accepted_entries_are_methods()
    ensures { AcceptedEntriesAreMethods }
{}

/// The nodes of an accepted program are numbered from 1 in the order of its code.
pub fn accepted_nodes_are_in_order()
    ensures { AcceptedNodesAreInOrder }
{}

/// Each statement of the code of an accepted program runs as often as its counter tells.
pub fn accepted_counts_are_runs<Q, W>()
    ensures { AcceptedCountsAreRuns Q W }
{}

/// A method of an accepted program has at most two slots for each token that a method may have.
pub fn accepted_slots_are_few()
    ensures { AcceptedHasFewSlots }
{}

/// The code of an accepted program has no more classes, fields and methods than a program may have,
/// and its nodes have numbers of 32 bits.
pub fn accepted_keeps_limits()
    ensures { AcceptedKeepsLimits }
{}
