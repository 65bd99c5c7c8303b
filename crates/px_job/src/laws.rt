//! Laws of what the reader's contract says.

ghost use Rattle.px_job.specs.Filing.{LinesAreFiled};
ghost use Rattle.px_job.specs.Fitting.{JobsFit};
ghost use Rattle.px_job.specs.OneSession.{TakenIsOfOneSession};
ghost use Rattle.px_job.specs.Short.{TextsAreShort};
ghost use Rattle.px_job.specs.Spelling.{WordsAreSpelled};

/// The lines that are read are those that stand in the file.
pub fn lines_are_filed()
    ensures { LinesAreFiled }
{}

/// The words of a line are those that are spelled in it.
pub fn words_are_spelled()
    ensures { WordsAreSpelled }
{}

/// A job keeps its limits: settings in their ranges, rows of tables that there are, with values of
/// their columns and no key twice, calls and loads of sessions and entries that there are. Each part
/// serves up to more than the one before, the last up to the full load; it has a side for each node
/// where it has no budget, and prints at APP.
pub fn jobs_fit()
    ensures { JobsFit }
{}

/// The arguments of a job's calls are no references, and their texts are within their limit and of
/// ASCII.
pub fn texts_are_short()
    ensures { TextsAreShort }
{}

/// A job without a line that two ends don't take yet has one session and one part, which places each
/// node.
pub fn taken_is_of_one_session()
    ensures { TakenIsOfOneSession }
{}
