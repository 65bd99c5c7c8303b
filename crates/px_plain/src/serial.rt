//! The serial run of calls.
ghost use Rattle.std.specs.Prelude.{◌≡◌, map, IfOk};
ghost use Rattle.px_plain.specs.Serial.{told_call, serial_of, ran_of};

use crate::plain::Plain;
use px_code::Shown;
use px_facts::Checked;
use px_rows::Tables;
use px_value::{Heap, Value};
use std::alloc::{AllocError, Global};

/// A call of an entry.
#[derive(Clone, Copy)]
pub struct Call<'a> {
    /// Its session, from 1.
    pub session: u16,
    /// The place of its entry, from 0.
    pub entry: usize,
    pub args: &'a [Value],
}

/// What calls leave.
#[derive(Drop)]
pub struct Ran {
    /// What each call shows.
    pub shown: Vec<Shown>,
    /// The heaps of the sessions.
    pub heaps: Vec<Heap>,
    pub tables: Tables,
}

/// The calls one after the other, on these tables, by so many sessions as new.
pub fn serve(
    alloc: Global,
    checked: &Checked,
    tables: Tables,
    sessions: u16,
    calls: &[Call<'_>],
) -> Result<Ran, AllocError>
    ensures { IfOk result (λ ran. serial_of checked.now sessions tables (map told_call calls.now) ≡ ran_of ran.shown.items ran.heaps.items ran.tables) }
{
    let mut plain = Plain::new(alloc, checked, sessions, tables)?;
    let mut shown = Vec::new(alloc);
    for call in calls {
        shown.push(plain.call(call.session, call.entry, call.args)?)?;
    }
    Ok(Ran {
        shown,
        heaps: plain.heaps,
        tables: plain.tables,
    })
}
