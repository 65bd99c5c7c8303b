//! The lines of what was printed.
ghost use Rattle.std.specs.Prelude.{◌≡◌, ◌++◌, OnOk};
ghost use Rattle.std.specs.List.{flat_map};
ghost use Rattle.px_report.specs.Lines.{print_line};

use crate::words::{push_labelled, push_quoted};
use px_value::Text;
use std::alloc::AllocError;

fn push_print(text: &mut Vec<u8>, session: u16, printed: &[u8]) -> Result<(), AllocError>
    ensures { OnOk result (text.new.items ≡ text.old.items ++ print_line session printed.now) }
{
    push_labelled(text, b"print ", session)?;
    text.push(b' ')?;
    push_quoted(text, printed)?;
    text.push(b'\n')?;
    Ok(())
}

pub fn push_prints(text: &mut Vec<u8>, session: u16, prints: &[Text]) -> Result<(), AllocError>
    ensures { OnOk result (text.new.items ≡ text.old.items ++ flat_map (print_line session) prints.now) }
{
    for printed in prints {
        push_print(text, session, printed.as_slice())?;
    }
    Ok(())
}
