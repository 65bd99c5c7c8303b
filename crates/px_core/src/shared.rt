//! The core.
ghost use Rattle.std.specs.Prelude.{◌≡◌, ◌++◌, ◌∷◌, [], true, IfOk, OnErr};
ghost use Rattle.px_history.specs.declared.event.Event.TheVariants.{End, Drop};
ghost use Rattle.px_history.specs.Attempts.{is_active};
ghost use Rattle.px_engine.specs.Told.{IsNextCall, IsBegun, IsOpped};
ghost use Rattle.px_core.specs.Cored.{history_of, calls_in, IsSameCore, IsServable, AsksNext, EndsNext, IsFaithfulCore, AreTables};

use px_code::Done;
use px_engine::{Begun, Engine, Opped};
use px_facts::Checked;
use px_history::Event;
use px_job::Job;
use px_rows::Tables;
use px_value::TableOp;
use std::alloc::{AllocError, Global};
use std::marker::Model;
use std::snapshot::Snapshot;

/// The history of all sessions, with the program, the job and the tables that it began with.
#[derive(Drop)]
pub struct Core {
    program: Snapshot<Checked>,
    job: Snapshot<Job>,
    first: Snapshot<Tables>,
    engine: Engine,
}

impl Model for Core {
    ghost use Rattle.px_core.specs.Cored.{Cored};
    ghost use Rattle.px_core.specs.Kept.{IsKeptBy};
    ghost use Rattle.std.specs.Coded.{codes, coded_ℤ, coded_list};
    ghost use Rattle.std.specs.FinMap.{code};
    ghost use Rattle.std.specs.Ordering.{int_cmp};
    ghost use Rattle.px_value.specs.contracts.value.Value as stored;
    ghost use Rattle.px_tree.specs.contracts.StmtForm as statement;
    ghost use Rattle.px_tree.specs.contracts.ExprForm as expression;

    ghost Value = { Cored };

    ghost coded = { Prim.hlevel (codes, statement.the_row.coded, expression.the_row.coded, code {R = int_cmp} coded_ℤ (coded_list stored.the_row.coded)) };

    ghost view = { λ c. record { program = c.program.value; job = c.job.value; first = c.first.value; events = c.engine.journal.events } };

    ghost invariant = { λ c. IsKeptBy c.program.value c.job.value c.first.value c.engine };
}

impl Core {
    /// A core without events.
    pub fn new(
        alloc: Global,
        tables: Tables,
        program: &Checked,
        job: &Job,
    ) -> Result<Core, AllocError>
        requires job { IsServable job.now }
        ensures program { IfOk result (λ c. c.program ≡ program.now) }
        ensures job { IfOk result (λ c. c.job ≡ job.now) }
        ensures first { IfOk result (λ c. c.first ≡ tables) }
        ensures events { IfOk result (λ c. c.events ≡ []) }
    {
        let first = Snapshot::of(&tables);
        let sessions = usize::from(job.settings.sessions) + 1;
        let engine = Engine::new(alloc, tables, sessions, job.settings.retries)?;
        Ok(Core {
            program: Snapshot::of(program),
            job: Snapshot::of(job),
            first,
            engine,
        })
    }

    /// Begins the next attempt of a call, or says whose call has to end before.
    pub fn begin(&mut self, session: u16, call: u64) -> Result<Begun, AllocError>
        requires next { IsNextCall (calls_in self.old) (history_of self.old) session call }
        ensures same { IsSameCore self.old self.new }
        ensures told { IfOk result (λ told. IsBegun (calls_in self.old) told session call (self.old).events (self.new).events) }
        ensures err { OnErr result (self.new ≡ self.old) }
    {
        self.engine.begin(session, call)
    }

    /// Does the operation that the session asks next, or tells it to wait, or ends its attempt.
    pub fn op(&mut self, session: u16, op: TableOp) -> Result<Opped, AllocError>
        requires asks { AsksNext self.old session op }
        ensures same { IsSameCore self.old self.new }
        ensures told { IfOk result (λ told. IsOpped (self.old).first session op told (self.old).events (self.new).events) }
        ensures err { OnErr result (self.new ≡ self.old) }
    {
        self.engine.op(session, op)
    }

    /// Ends a call. It takes no memory.
    pub fn end(&mut self, session: u16, done: Done)
        requires ends { EndsNext self.old session done }
        ensures same { IsSameCore self.old self.new }
        ensures events { (self.new).events ≡ (self.old).events ++ End session done ∷ [] }
    {
        self.engine.end(session, done);
    }

    /// Gives a call up. It takes no memory.
    pub fn drop_call(&mut self, session: u16)
        requires active { is_active session (history_of self.old) ≡ true }
        ensures same { IsSameCore self.old self.new }
        ensures events { (self.new).events ≡ (self.old).events ++ Drop session ∷ [] }
    {
        self.engine.drop_call(session);
    }

    /// The events in their order, which are the run of the calls that ended, one at a time.
    pub fn history(&self) -> &[Event]
        ensures events { result.now ≡ (self.now).events }
        ensures faithful { IsFaithfulCore self.now }
    {
        self.engine.history()
    }

    /// The tables in place: where nobody else has written, those that a session sees.
    pub fn tables(&self) -> &Tables
        ensures { AreTables self.now result.now }
    {
        self.engine.tables()
    }
}
