//! What holds of code and its blocks, as theorems about their definitions.
ghost use Rattle.px_blocks.specs.Law.{AnswersContinue, BlocksRunAsCode, CutIsOne, CodeIsCut};

/// The blocks run in their order as the code does: with the same result, throw or open question, on the same heap, and the same statements.
pub fn blocks_run_as_code<Q, W>()
    ensures { BlocksRunAsCode Q W }
{}

/// Blocks that stopped at an operation go on with its answer as the code does that had it from the start.
pub fn answers_continue()
    ensures { AnswersContinue }
{}

/// The rules of the cut, the code and its placement fix the blocks.
pub fn cut_is_one()
    ensures { CutIsOne }
{}

/// Each code has blocks, whatever its placement.
pub fn code_is_cut()
    ensures { CodeIsCut }
{}
