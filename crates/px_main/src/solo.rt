//! The report of a solo run.
ghost use Rattle.std.specs.Prelude.{◌≡◌, map, slice_get, IfOk, [], ◌∷◌};
ghost use Rattle.px_code.specs.declared.plan.Plan.{Plan as PlanData};
ghost use Rattle.px_code.specs.WellFormed.{IsWellFormed};
ghost use Rattle.px_session.specs.Wanted.{wanted};
ghost use Rattle.px_main.specs.Served.{AreCalls, AreServedBy, IsTaken};
ghost use Rattle.px_main.specs.Solo.{asked, method_at, placement_in, part_name, history_of, IsPlanOf, AreDone, IsReport};

use crate::serial::{class_names, run_serial};
use px_code::{Code, Done, Event, Placement, Plans};
use px_compile::compile;
use px_facts::{Checked, Entry};
use px_job::{Call, Job, Part, sides_of};
use px_report::report_text;
use px_session::{Wanted, serve};
use px_value::Text;
use sqlite_items::{Items, at};
use std::alloc::{AllocError, Global};
use std::sync::Arc;

// The number of an entry's method, or 0 where there is no such entry.
fn method_of(entries: &[Entry], entry: usize) -> u16
    ensures { result ≡ method_at (slice_get entries.now entry) }
{
    match at(entries, entry) {
        Some(entry) => entry.method,
        None => 0,
    }
}

fn asked_calls<'a>(
    alloc: Global,
    entries: &[Entry],
    calls: &'a [Call],
) -> Result<Vec<Wanted<'a>>, AllocError>
    ensures { IfOk result (λ all. map wanted all.items ≡ map (asked entries.now) calls.now) }
{
    let mut all = Vec::new(alloc);
    for call in calls {
        all.push(Wanted {
            method: method_of(entries, call.entry),
            args: call.args.as_slice(),
        })?;
    }
    Ok(all)
}

fn first_placement(alloc: Global, parts: &[Part]) -> Result<Placement, AllocError>
    ensures { IfOk result (λ p. p ≡ placement_in (slice_get parts.now 0)) }
{
    match at(parts, 0) {
        Some(part) => sides_of(alloc, part),
        None => Ok(Placement {
            sides: Items::new(alloc),
        }),
    }
}

// The one plan that there is.
fn one_plan(alloc: Global, code: Code, sides: Placement) -> Result<Plans, AllocError>
    requires { IsWellFormed code }
    ensures { IfOk result (λ plans. (plan : PlanData) × (plans.value.items ≡ plan ∷ []) × IsPlanOf code sides plan) }
{
    let mut plans = Vec::new(alloc);
    plans.push(compile(alloc, code, sides)?)?;
    Ok(Arc::new(alloc, plans)?)
}

// The calls, served by two ends.
fn serve_calls(
    alloc: Global,
    code: Code,
    sides: Placement,
    calls: &[Wanted<'_>],
) -> Result<Vec<Done>, AllocError>
    requires formed { IsWellFormed code }
    requires calls { AreCalls code (map wanted calls.now) }
    ensures { IfOk result (λ dones. AreServedBy code sides (map wanted calls.now) dones.items) }
{
    let plans = one_plan(alloc, code, sides)?;
    serve(alloc, &plans, calls)
}

// The calls of a job, served by two ends.
fn serve_job(
    alloc: Global,
    checked: &Checked,
    simple: Code,
    job: &Job,
) -> Result<Vec<Done>, AllocError>
    requires { IsTaken checked.now simple job.now }
    ensures { IfOk result (λ dones. AreDone checked.now job.now dones.items) }
{
    let sides = first_placement(alloc, job.parts.as_slice())?;
    let entries = checked.facts.main.entries.as_slice();
    let asked = asked_calls(alloc, entries, job.calls.as_slice())?;
    serve_calls(alloc, simple, sides, asked.as_slice())
}

// The history of calls, each of which began once and ended before the next.
fn history(alloc: Global, dones: Vec<Done>) -> Result<Vec<Event>, AllocError>
    ensures { IfOk result (λ events. events.items ≡ history_of dones.items) }
{
    let session = 1;
    let mut events = Vec::new(alloc);
    let mut call: u64 = 1;
    for done in dones {
        let attempt = 1;
        events.push(Event::Begin {
            session,
            call,
            attempt,
        })?;
        events.push(Event::End { session, done })?;
        call += 1;
    }
    Ok(events)
}

fn part_names(alloc: Global, parts: &[Part]) -> Result<Vec<Text>, AllocError>
    ensures { IfOk result (λ all. all.items ≡ map part_name parts.now) }
{
    let mut all = Vec::new(alloc);
    for part in parts {
        all.push(part.name.copy(alloc)?)?;
    }
    Ok(all)
}

// The report of calls that were served.
fn report(
    alloc: Global,
    checked: &Checked,
    job: &Job,
    dones: Vec<Done>,
) -> Result<Vec<u8>, AllocError>
    requires { AreDone checked.now job.now dones.items }
    ensures { IfOk result (λ text. IsReport checked.now job.now text.items) }
{
    let events = history(alloc, dones)?;
    let ran = run_serial(alloc, checked, job)?;
    let classes = class_names(alloc, checked.program.classes.as_slice())?;
    let parts = part_names(alloc, job.parts.as_slice())?;
    report_text(
        alloc,
        classes.as_slice(),
        &checked.schema,
        parts.as_slice(),
        events.as_slice(),
        &ran.tables,
        ran.heaps.as_slice(),
    )
}

/// The report of the calls of a job, served by two ends under the job's part. The code is that of the program, as two ends have it.
pub fn solo(
    alloc: Global,
    checked: &Checked,
    simple: Code,
    job: &Job,
) -> Result<Vec<u8>, AllocError>
    requires { IsTaken checked.now simple job.now }
    ensures { IfOk result (λ text. IsReport checked.now job.now text.items) }
{
    let dones = serve_job(alloc, checked, simple, job)?;
    report(alloc, checked, job, dones)
}
