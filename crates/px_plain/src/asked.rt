//! The tables during a call, which can be taken back.
ghost use Rattle.std.specs.Prelude.{◌≡◌};
ghost use Rattle.px_rows.specs.Tables.{undone};

use px_rows::{Tables, Undo};
use std::alloc::Global;

/// The tables, and what stood in the rows that were written since the call began.
#[derive(Drop)]
pub struct Asked {
    pub tables: Tables,
    pub undo: Undo,
    /// How many operations there were.
    pub count: u32,
}

impl Asked {
    /// Of a call that begins.
    #[tactic(auto, unfolding(px_rows::specs::Tables::undone))]
    pub fn new(alloc: Global, tables: Tables) -> Asked
        ensures tables { result.tables ≡ tables }
        ensures undone { undone result.undo result.tables ≡ tables }
        ensures count { result.count ≡ 0 }
    {
        Asked {
            tables,
            undo: Undo::new(alloc),
            count: 0,
        }
    }

    /// The tables that were reached.
    pub fn into_tables(self) -> Tables
        ensures { result ≡ self.tables }
    {
        let Asked { tables, .. } = self;
        tables
    }

    /// The tables as they were when the call began.
    pub fn into_old_tables(self) -> Tables
        ensures { result ≡ undone self.undo self.tables }
    {
        let Asked {
            mut tables,
            mut undo,
            ..
        } = self;
        tables.undo(&mut undo);
        tables
    }
}
