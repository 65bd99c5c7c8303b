//! Both ends while a call runs.
ghost use Rattle.std.specs.Prelude.{◌≡◌, ◌+◌, true, false, IfOk, OnOk, OnErr};
ghost use Rattle.px_code.specs.declared.side.Side.TheVariants.{App, Db};
ghost use Rattle.px_half.specs.End.{begun, attended, block_run, closed_now, rolled_back};
ghost use Rattle.px_half.specs.Messages.{IsTellable};
ghost use Rattle.px_pair.specs.Telling.{IsWelcome};
ghost use Rattle.px_pair.specs.Ends.{near, far, with_end, AreSameEnds, moves_within, bytes_within, HasCrossed, CanTalk, IsUncounted, ending_of, HaveTalked, HasFinished, IfFinished};
ghost use Rattle.px_pair.specs.Pair.{HasCommitted, HasAborted};

use crate::tell::tell;
use px_code::{Done, Reply, Shown, Side};
use px_half::{Half, Step};
use px_value::{Thrown, Value};
use sqlite_items::Items;
use std::alloc::{AllocError, Global};

/// The message that tells of a throw: nothing reads it yet, so it is counted and not made.
const ABORT_LENGTH: u64 = 2;

/// Both ends, and what is counted of a call.
#[derive(Drop)]
pub struct Ends {
    pub app: Half,
    pub db: Half,
    /// The end with control.
    pub at: Side,
    /// How often control went over.
    pub moves: u32,
    /// The length of all messages.
    pub bytes: u64,
}

impl Ends {
    /// APP opens a call, and DB attends it.
    pub fn begin(&mut self, alloc: Global, method: u16, args: &[Value]) -> Result<(), AllocError>
        requires app { (self.old.app.side ≡ App) × (self.old.app.in_call ≡ false) }
        requires db { (self.old.db.side ≡ Db) × (self.old.db.in_call ≡ false) }
        ensures ok { OnOk result (self.new ≡ record { app = begun method args.now self.old.app; db = attended self.old.db; at = App; moves = 0; bytes = 0 }) }
        ensures err { OnErr result (self.new ≡ self.old) }
    {
        self.app.begin(alloc, method, args)?;
        self.db.attend();
        self.at = Side::App;
        self.moves = 0;
        self.bytes = 0;
        Ok(())
    }

    // The present block of the end with control.
    fn run_block(&mut self, alloc: Global) -> Result<Step, AllocError>
        requires { (near self.old).in_call ≡ true }
        ensures answer { IfOk result (λ step. step ≡ (block_run (near self.old)).answer) }
        ensures after { OnOk result (self.new ≡ with_end self.old.at (block_run (near self.old)).after self.old) }
        ensures same { AreSameEnds self.old self.new }
    {
        match self.at {
            Side::App => self.app.run_block(alloc),
            Side::Db => self.db.run_block(alloc),
        }
    }

    fn count(&mut self, long: usize)
        ensures { self.new ≡ record self.old { moves = moves_within (self.old.moves + 1); bytes = bytes_within (self.old.bytes + long) } }
    {
        self.moves = self.moves.saturating_add(1);
        self.bytes = self.bytes.saturating_add(long as u64);
    }

    // Control goes over.
    fn cross(&mut self, alloc: Global) -> Result<(), AllocError>
        requires tellable { IsTellable (near self.old).machine }
        requires welcome { IsWelcome (near self.old) (far self.old) }
        ensures crossed { OnOk result (HasCrossed self.old self.new) }
        ensures same { AreSameEnds self.old self.new }
    {
        match self.at {
            Side::App => {
                let long = tell(alloc, &mut self.app, &mut self.db)?;
                self.at = Side::Db;
                self.count(long);
                Ok(())
            }
            Side::Db => {
                let long = tell(alloc, &mut self.db, &mut self.app)?;
                self.at = Side::App;
                self.count(long);
                Ok(())
            }
        }
    }

    /// Runs blocks, and hands control over, up to the end of the call; answers what it threw.
    pub fn talk(&mut self, alloc: Global) -> Result<Option<Thrown>, AllocError>
        requires ready { CanTalk self.old }
        requires uncounted { IsUncounted self.old }
        ensures talked { IfOk result (λ thrown. HaveTalked self.old self.new (ending_of thrown)) }
        ensures finished { IfOk result (λ thrown. IfFinished thrown self.new) }
        ensures same { AreSameEnds self.old self.new }
    {
        loop {
            match self.run_block(alloc)? {
                Step::Next => {}
                Step::Cross => self.cross(alloc)?,
                Step::Threw(thrown) => return Ok(Some(thrown)),
                Step::Done => return Ok(None),
            }
        }
    }

    /// Makes the commit of a call that has ended, which DB takes in, and tells of the call.
    #[tactic(auto, using(crate::proofs::Pairs::finished_knows))]
    pub fn commit(&mut self, alloc: Global) -> Result<Done, AllocError>
        requires { HasFinished self.old }
        ensures committed { IfOk result (λ done. HasCommitted self.old self.new done) }
        ensures same { AreSameEnds self.old self.new }
    {
        let Shown { reply, prints } = self.app.shown(alloc)?;
        let long = tell(alloc, &mut self.app, &mut self.db)?;
        Ok(Done {
            reply,
            prints,
            part: 0,
            avg: 0,
            moves: self.moves,
            bytes: self.bytes.saturating_add(long as u64),
            rehome: 0,
        })
    }

    /// Tells of a call that threw.
    pub fn aborted(&self, alloc: Global, thrown: Thrown) -> Done
        ensures { HasAborted thrown self.now result }
    {
        Done {
            reply: Reply::Threw(thrown),
            prints: Items::new(alloc),
            part: 0,
            avg: 0,
            moves: self.moves,
            bytes: self.bytes.saturating_add(ABORT_LENGTH),
            rehome: 0,
        }
    }

    /// Both ends keep what was done.
    pub fn close(&mut self)
        ensures { self.new ≡ record self.old { app = closed_now self.old.app; db = closed_now self.old.db; at = App } }
    {
        self.app.close();
        self.db.close();
        self.at = Side::App;
    }

    /// Both ends take back what was done since the last close.
    pub fn roll_back(&mut self)
        ensures { self.new ≡ record self.old { app = rolled_back self.old.app; db = rolled_back self.old.db; at = App } }
    {
        self.app.roll_back();
        self.db.roll_back();
        self.at = Side::App;
    }
}
