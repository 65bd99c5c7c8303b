//! What holds of the table of the operators.
ghost use Rattle.px_ops.specs.Rules.{TableIsWhole, RowsKeepTypes};

/// The table has exactly the rows that the rules of the language's types ask for.
pub fn table_is_whole()
    ensures { TableIsWhole }
{}

/// Values of a row's types give a value of the type that it gives, or throw.
pub fn rows_keep_types()
    ensures { RowsKeepTypes }
{}
