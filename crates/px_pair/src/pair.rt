//! Both ends of a session.
ghost use Rattle.std.specs.Prelude.{◌≡◌, None, IfOk, OnOk, OnErr};
ghost use Rattle.px_pair.specs.declared.stage.Stage.TheVariants.{Idle, Open, Taken, Broken};
ghost use Rattle.px_pair.specs.Ends.{AreSameEnds};
ghost use Rattle.px_pair.specs.Pair.{HasServable, new_pair, begun_pair, CanCall, HasEnded, AtEnd, Tells, committed, taken_back};

use crate::ends::Ends;
use crate::stage::Stage;
use px_code::{Done, Plans, Side};
use px_half::Half;
use px_value::Value;
use std::alloc::{AllocError, Global};
use std::marker::Model;

/// What a call needs to go on.
#[derive(Clone, Copy, Debug, PartialEq, Eq)]
pub enum Need {
    /// Nothing: it has ended.
    Done,
}

/// Both ends of a session, which exchange nothing but bytes.
#[derive(Drop)]
pub struct Pair {
    ends: Ends,
    stage: Stage,
}

impl Model for Pair {
    ghost use Rattle.px_pair.specs.Pair.{State, IsPair};

    ghost Value = { State };

    ghost view = { λ p. record { ends = p.ends; stage = p.stage } };

    ghost invariant = { λ p. IsPair (record { ends = p.ends; stage = p.stage }) };
}

impl Pair {
    /// A pair as new: both heaps hold one object of Main, and the plan is the first.
    pub fn new(alloc: Global, plans: &Plans) -> Result<Pair, AllocError>
        requires { HasServable plans.now.value.items }
        ensures { IfOk result (λ p. p ≡ new_pair plans.now.value.items) }
    {
        let app = Half::new(alloc, Side::App, plans)?;
        let db = Half::new(alloc, Side::Db, plans)?;
        Ok(Pair {
            ends: Ends {
                app,
                db,
                at: Side::App,
                moves: 0,
                bytes: 0,
            },
            stage: Stage::Idle,
        })
    }

    /// Opens a call of an entry, by the number of its method from 1.
    pub fn begin(&mut self, alloc: Global, method: u16, args: &[Value]) -> Result<(), AllocError>
        requires idle { self.old.stage ≡ Idle }
        requires callable { CanCall method args.now self.old }
        ensures ok { OnOk result (self.new ≡ begun_pair method args.now self.old) }
        ensures err { OnErr result (self.new ≡ self.old) }
    {
        self.ends.begin(alloc, method, args)?;
        self.stage = Stage::Open;
        Ok(())
    }

    /// Runs the call up to its end. After want of memory only `roll_back` may follow.
    pub fn advance(&mut self, alloc: Global) -> Result<Need, AllocError>
        requires { self.old.stage ≡ Open }
        ensures ended { OnOk result (HasEnded self.old self.new) }
        ensures same { AreSameEnds self.old.ends self.new.ends }
    {
        self.stage = Stage::Broken;
        let thrown = self.ends.talk(alloc)?;
        self.stage = Stage::Ended(thrown);
        Ok(Need::Done)
    }

    /// Tells of the call that has ended. Where it threw nothing, the commit is made here and DB takes it in, so that `commit` takes no memory. After want of memory only `roll_back` may follow.
    pub fn take_done(&mut self, alloc: Global) -> Result<Done, AllocError>
        requires { AtEnd self.old }
        ensures tells { IfOk result (λ done. Tells self.old self.new done) }
        ensures same { AreSameEnds self.old.ends self.new.ends }
    {
        let Stage::Ended(thrown) = self.stage else {
            unreachable!()
        };
        match thrown {
            Some(thrown) => {
                self.stage = Stage::Taken(Some(thrown));
                Ok(self.ends.aborted(alloc, thrown))
            }
            None => {
                self.stage = Stage::Broken;
                let done = self.ends.commit(alloc)?;
                self.stage = Stage::Taken(None);
                Ok(done)
            }
        }
    }

    /// Keeps what the call did. Takes no memory.
    pub fn commit(&mut self)
        requires { self.old.stage ≡ Taken None }
        ensures { self.new ≡ committed self.old }
    {
        self.ends.close();
        self.stage = Stage::Idle;
    }

    /// Takes back what was done since the last `commit`, at both ends. Takes no memory.
    pub fn roll_back(&mut self)
        ensures { self.new ≡ taken_back self.old }
    {
        self.ends.roll_back();
        self.stage = Stage::Idle;
    }
}
