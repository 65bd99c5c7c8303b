//! What holds of operations, and of their undo.
ghost use Rattle.px_rows.specs.Laws.{UndoRestores, UndoRestoresAll, EmptyIsTyped, LoadKeepsTypes, WriteKeepsTypes};

/// To put back what an operation changed leaves the tables as they were before it.
pub fn undo_restores()
    ensures { UndoRestores }
{}

/// So it does after any operations.
pub fn undo_restores_all()
    ensures { UndoRestoresAll }
{}

/// Each row of empty tables is one of its table's columns: there is none.
pub fn empty_is_typed()
    ensures { EmptyIsTyped }
{}

/// A row of its table's columns leaves each row one of its table's columns.
pub fn load_keeps_types()
    ensures { LoadKeepsTypes }
{}

/// So does an operation whose parameters are of the columns that it writes.
pub fn write_keeps_types()
    ensures { WriteKeepsTypes }
{}
