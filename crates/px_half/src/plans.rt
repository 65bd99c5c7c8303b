//! What an end looks up in its plan.
ghost use Rattle.std.specs.Prelude.{◌≡◌, slice_get, unwrap_or};
ghost use Rattle.std.specs.Option.{option_copied};
ghost use Rattle.px_code.specs.Places.{numbered as numbered_from_one};
ghost use Rattle.px_code.specs.CodeRun.{method_at as code_method_at};
ghost use Rattle.px_code.specs.Machine.{block_at as code_block_at};
ghost use Rattle.px_half.specs.End.{blocks_in, methods_in, first_block as code_first_block, side_of_block as code_side_of_block};

use px_code::{Block, Method, Plan, Plans, Side};
use sqlite_items::at;

/// The plan of a part, from 0.
pub fn plan_at(plans: &Plans, part: u8) -> Option<&Plan>
    ensures { option_copied result ≡ slice_get plans.now.value.items part }
{
    at(plans.as_slice(), usize::from(part))
}

/// An item by its number from 1.
pub fn numbered<T>(items: &[T], number: usize) -> Option<&T>
    ensures { option_copied result ≡ numbered_from_one items.now number }
{
    if number == 0 {
        return None;
    }
    at(items, number - 1)
}

/// A method by its number from 1.
pub fn method_at(plan: Option<&Plan>, method: u16) -> Option<&Method>
    ensures { option_copied result ≡ code_method_at (methods_in (option_copied plan.entry)) method }
{
    numbered(plan?.code.methods.as_slice(), usize::from(method))
}

/// A block by its number from 1.
pub fn block_at(plan: Option<&Plan>, block: u32) -> Option<&Block>
    ensures { option_copied result ≡ code_block_at (blocks_in (option_copied plan.entry)) block }
{
    numbered(plan?.blocks.blocks.as_slice(), block as usize)
}

/// The block that a method begins with.
pub fn first_block(plan: Option<&Plan>, method: u16) -> u32
    ensures { result ≡ code_first_block (option_copied plan.entry) method }
{
    match plan {
        None => 0,
        Some(plan) => match numbered(plan.blocks.firsts.as_slice(), usize::from(method)) {
            Some(block) => *block,
            None => 0,
        },
    }
}

/// Where a block runs; block 0 is at APP.
pub fn side_of_block(plan: Option<&Plan>, block: u32) -> Side
    ensures { result ≡ code_side_of_block (blocks_in (option_copied plan.entry)) block }
{
    match block_at(plan, block) {
        Some(block) => block.side,
        None => Side::App,
    }
}
