//! Laws of what the contracts say.
ghost use Rattle.px_sql.specs.Tables.{SchemasKeepTheRule};
ghost use Rattle.px_sql.specs.Reading.{TextsAreRead};
ghost use Rattle.px_sql.specs.Spelling.{ATextMeansOneStatement, StatementsAreSpelled};

/// Tables that are read keep the rule: at most 100, each of 1 to 16 columns with a key of longs, all of different names.
pub fn schemas_keep_the_rule()
    ensures { SchemasKeepTheRule }
{}

/// Over tables that keep the rule, the statement that is read is the one that the text means.
pub fn texts_are_read()
    ensures { TextsAreRead }
{}

/// Over tables that keep the rule, a text means at most one statement.
pub fn a_text_means_one_statement()
    ensures { ATextMeansOneStatement }
{}

/// Each statement has a text that means it.
pub fn statements_are_spelled()
    ensures { StatementsAreSpelled }
{}
