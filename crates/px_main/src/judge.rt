//! What comes of a program file that is served by two ends.
ghost use Rattle.std.specs.Prelude.{◌≡◌, ◌≤◌, length, IfSome, IfOk};
ghost use Rattle.std.specs.Option.{option_map};
ghost use Rattle.px_main.specs.Answers.{JudgesSplit, taken, max_program};
ghost use Rattle.px_main.specs.Known.{IsKnown, IsSplit};
ghost use Rattle.px_main.specs.Split.{found_in};

use crate::fault::{Fault, ProgramCode};
use crate::whole::judge_whole;
use px_facts::Checked;
use px_lowering::lower;
use px_straight::straighten;
use std::alloc::{AllocError, Global};

/// A program that two ends take: what is known of it, its code, and the same code as two ends have it.
#[derive(Drop)]
pub struct Split {
    pub checked: Checked,
    pub code: px_normal::Code,
    pub simple: px_code::Code,
}

// An accepted program by its code.
fn split_code(alloc: Global, checked: Checked) -> Result<Result<Split, Fault>, AllocError>
    requires { IsKnown checked }
    ensures found { IfOk result (λ judged. found_in judged ≡ taken (Ok checked)) }
    ensures split { IfOk result (λ judged. IfOk judged IsSplit) }
{
    let code = lower(alloc, &checked)?;
    match straighten(alloc, &code)? {
        Ok(simple) => Ok(Ok(Split {
            checked,
            code,
            simple,
        })),
        Err(line) => {
            let code = ProgramCode::Later;
            Ok(Err(Fault { line, code }))
        }
    }
}

/// Judges what was kept of a program file; nothing was where it is too long.
pub fn judge_split(
    alloc: Global,
    bytes: &Option<Vec<u8>>,
) -> Result<Result<Split, Fault>, AllocError>
    requires { IfSome bytes.now (λ bytes. length bytes.items ≤ max_program) }
    ensures judged { IfOk result (λ judged. JudgesSplit (option_map (λ bytes. bytes.items) bytes.now) (found_in judged)) }
    ensures split { IfOk result (λ judged. IfOk judged IsSplit) }
{
    match judge_whole(alloc, bytes)? {
        Ok(checked) => split_code(alloc, checked),
        Err(fault) => Ok(Err(fault)),
    }
}
