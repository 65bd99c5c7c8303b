//! The calls of a session, one after the other.
ghost use Rattle.std.specs.Prelude.{◌≡◌, Some, [], map, slice_get, IfOk};
ghost use Rattle.std.specs.List.{AllByRecursion};
ghost use Rattle.px_half.specs.End.{first_objects};
ghost use Rattle.px_code.specs.declared.plan.Plan.{Plan};
ghost use Rattle.px_pair.specs.declared.stage.Stage.TheVariants.{Idle};
ghost use Rattle.px_pair.specs.Callable.{IsCallable};
ghost use Rattle.px_pair.specs.Pair.{HasServable, CanCall};
ghost use Rattle.px_session.specs.Serving.{AreServed, by_code};
ghost use Rattle.px_session.specs.Wanted.{wanted};
ghost use Rattle.px_session.specs.Resting.{Serves};

use px_code::{Done, Plans, Reply};
use px_pair::Pair;
use px_value::Value;
use std::alloc::{AllocError, Global};

/// A call of an entry, by the number of its method from 1.
#[derive(Clone, Copy)]
pub struct Wanted<'a> {
    pub method: u16,
    pub args: &'a [Value],
}

// One call. A throw is taken back at both ends.
fn serve_one(alloc: Global, pair: &mut Pair, call: &Wanted<'_>) -> Result<Done, AllocError>
    requires idle { pair.old.stage ≡ Idle }
    requires callable { CanCall call.now.method call.now.args.now pair.old }
    ensures { IfOk result (λ done. Serves (wanted call.now) pair.old pair.new done) }
{
    pair.begin(alloc, call.method, call.args)?;
    pair.advance(alloc)?;
    let done = pair.take_done(alloc)?;
    match done.reply {
        Reply::Threw(_) => {
            pair.roll_back();
            Ok(done)
        }
        _ => {
            pair.commit();
            Ok(done)
        }
    }
}

/// Serves the calls of a new session by its two ends, with the first plan, and tells of each.
pub fn serve(alloc: Global, plans: &Plans, calls: &[Wanted<'_>]) -> Result<Vec<Done>, AllocError>
    requires plan { HasServable plans.now.value.items }
    requires calls { (plan : Plan) → slice_get plans.now.value.items 0 ≡ Some plan → AllByRecursion (λ c. IsCallable plan.code c.method c.args) (map wanted calls.now) }
    ensures { IfOk result (λ dones. (plan : Plan) → slice_get plans.now.value.items 0 ≡ Some plan → AreServed (by_code plan.code) plan (first_objects (Some plan)) [] (map wanted calls.now) dones.items) }
{
    let mut pair = Pair::new(alloc, plans)?;
    let mut dones = Vec::new(alloc);
    for call in calls {
        dones.push(serve_one(alloc, &mut pair, call)?)?;
    }
    Ok(dones)
}
