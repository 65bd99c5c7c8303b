//! Calls of methods.
ghost use Rattle.std.specs.Prelude.{◌≡◌, ◌≤◌, ◌++◌, drop, map, IfOk, OnOk};
ghost use Rattle.std.specs.Option.{option_copied};
ghost use Rattle.px_mean.specs.Facts.{by_number, default_of as mean_default_of};
ghost use Rattle.px_mean.specs.Asks.{by_tables};
ghost use Rattle.px_mean.specs.Calls.{calls_in, first_slots as mean_first_slots, result_of as mean_result_of};
ghost use Rattle.px_plain.specs.View.{shared_of, source_of, all_now, flow_of, Ends, Keeps, IfKept, CallEnds};

use crate::around::Around;
use crate::facts::default_of;
use crate::machine::Machine;
use crate::statements::exec;
use crate::stop::{Next, Stop};
use px_facts::{Facts, MethodFact, Ty};
use px_tree::Method;
use px_value::{Thrown, Value, Values};
use sqlite_items::at;
use std::alloc::AllocError;

// The method of a number, from 1.
fn method_at<'a>(methods: &[&'a Method], number: u16) -> Option<&'a Method>
    ensures { option_copied result ≡ by_number (all_now methods.now) number }
{
    if number == 0 {
        return None;
    }
    match at(methods, usize::from(number) - 1) {
        Some(method) => Some(*method),
        None => None,
    }
}

fn fact_at(facts: &Facts, number: u16) -> Option<&MethodFact>
    ensures { option_copied result ≡ by_number facts.now.methods number }
{
    if number == 0 {
        return None;
    }
    at(facts.methods.as_slice(), usize::from(number) - 1)
}

fn rest_of(types: &[Ty], from: usize) -> &[Ty]
    ensures { result.now ≡ drop from types.now }
{
    if from < types.len() {
        &types[from..]
    } else {
        &[]
    }
}

// The locals behind those that are there, not yet written.
fn push_defaults(slots: &mut Values, types: &[Ty]) -> Result<(), AllocError>
    ensures { OnOk result (slots.new ≡ slots.old ++ map mean_default_of types.now) }
{
    for ty in types {
        slots.push(default_of(*ty))?;
    }
    Ok(())
}

// The slots of a frame that begins.
fn first_slots(types: &[Ty], values: Values) -> Result<Values, AllocError>
    ensures { IfOk result (λ slots. slots ≡ mean_first_slots types.now values) }
{
    let mut slots = values;
    let types = rest_of(types, slots.len());
    push_defaults(&mut slots, types)?;
    Ok(slots)
}

fn result_of(next: Next) -> Option<Value>
    ensures { result ≡ mean_result_of (flow_of next) }
{
    match next {
        Next::Goes => None,
        Next::Returns(value) => value,
    }
}

/// A call of a method, of the receiver and the arguments.
pub fn enter(
    around: &Around,
    m: &mut Machine,
    method: u16,
    values: Values,
) -> Result<Option<Value>, Stop>
    ensures ends { Ends (shared_of m.new) result (calls_in by_tables (source_of around.now) around.now.left method values (shared_of m.old)) }
    ensures kept { IfKept result (Keeps m.old m.new) }
    ensures turns { m.old.turns ≤ m.new.turns }
{
    if around.left == 0 {
        return Err(Stop::Threw(Thrown::StackOverflowError));
    }
    let Some(body) = method_at(around.methods, method) else {
        return Ok(None);
    };
    let Some(fact) = fact_at(around.facts, method) else {
        return Ok(None);
    };
    let inner = Around {
        alloc: around.alloc,
        facts: around.facts,
        methods: around.methods,
        result: fact.result,
        left: around.left - 1,
    };
    let run = |m: &mut Machine, method: u16, values: Values| -> Result<Option<Value>, Stop>
        ensures ends { Ends (shared_of m.new) result (calls_in by_tables (source_of inner.entry) inner.entry.left method values (shared_of m.old)) }
        ensures kept { IfKept result (Keeps m.old m.new) }
        ensures turns { m.old.turns ≤ m.new.turns }
    { enter(&inner, m, method, values) };
    let mut slots = first_slots(fact.slots.as_slice(), values)?;
    let next = exec(&inner, &run, m, &mut slots, &body.body)?;
    Ok(result_of(next))
}
