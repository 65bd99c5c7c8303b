//! What the type rules promise of a program that they accept.

ghost use Rattle.px_soundness.specs.Laws.{AcceptedIsTyped, AcceptedIsUsed, OperationsFitSchema, RunsStayTyped};

/// What is known of an accepted program is true of its trees.
pub fn accepted_is_typed()
    ensures { AcceptedIsTyped }
{}

/// The parts of an accepted program are used as the type rules say.
pub fn accepted_is_used()
    ensures { AcceptedIsUsed }
{}

/// What an accepted program asks fits the tables that it declares.
pub fn operations_fit_schema()
    ensures { OperationsFitSchema }
{}

/// The serial run of an accepted program leaves all heaps typed.
pub fn runs_stay_typed()
    ensures { RunsStayTyped }
{}
