//! Which block comes next.
ghost use Rattle.std.specs.Prelude.{◌≡◌};
ghost use Rattle.px_code.specs.Machine.{next_block as code_next_block};
ghost use Rattle.px_half.specs.Machine.{ending_of};
ghost use Rattle.px_half.specs.End.{without_block as step_without_block};

use crate::machine::Flow;
use crate::step::Step;
use px_code::{Exit, Side};

/// After the last statement of a block that was run.
pub fn next_block(exit: Exit, flow: Flow) -> u32
    ensures { result ≡ code_next_block exit (ending_of flow) }
{
    match (flow, exit) {
        (Flow::Goes, Exit::Next(block)) => block,
        (Flow::Goes, Exit::Return) | (Flow::Returned, _) => 0,
    }
}

/// Where the present block isn't there: at block 0 the call has ended, at APP.
pub fn without_block(side: Side, block: u32) -> Step
    ensures { result ≡ step_without_block side block }
{
    match side {
        Side::App => { if block == 0 { Step::Done } else { Step::Cross } }
        Side::Db => Step::Cross,
    }
}
