//! What dependences weigh.
ghost use Rattle.std.specs.Prelude.{◌≡◌, ◌≤◌, ◌<◌, ◌*◌, ◌^◌};
ghost use Rattle.px_partition.specs.Runs.{AreFew};
ghost use Rattle.px_partition.specs.Weights.{end_of, kind_of, calls_from, passes, price, weight, weighed, AreRates};

use crate::rates::Rates;
use crate::runs::{job_calls, runs};
use px_code::Counts;
use px_depend::{Edge as Dependence, End, Tie};
use px_graph::{Edge, EdgeKind, End as EdgeEnd};
use px_normal::Code;

fn end_of(end: End) -> EdgeEnd
    ensures { result ≡ end_of end }
{
    match end {
        End::App => EdgeEnd::App,
        End::Db => EdgeEnd::Db,
        End::Node(node) => EdgeEnd::Node(node),
    }
}

fn kind_of(tie: Tie) -> EdgeKind
    ensures { result ≡ kind_of tie }
{
    match tie {
        Tie::Held => EdgeKind::Control,
        Tie::Enters => EdgeKind::Control,
        Tie::Home => EdgeKind::Update,
        _ => EdgeKind::Data,
    }
}

// How often the method of a node is called from an end.
fn calls_from(code: &Code, counts: &Counts, method: u32, from: End) -> u64
    requires few { AreFew counts.now }
    ensures same { result ≡ calls_from code.now counts.now method from }
    ensures few { result < 2 ^ 32 }
{
    match from {
        End::App => job_calls(code, counts, method),
        End::Db => 0,
        End::Node(call) => runs(code, counts, call),
    }
}

// How often something passes.
fn passes(code: &Code, counts: &Counts, from: End, to: u32, tie: Tie) -> u64
    requires few { AreFew counts.now }
    ensures same { result ≡ passes code.now counts.now from to tie }
    ensures few { result < 2 ^ 32 }
{
    match tie {
        Tie::Enters => calls_from(code, counts, to, from),
        Tie::Argument(_) => calls_from(code, counts, to, from),
        _ => runs(code, counts, to),
    }
}

// What it costs to send it once.
fn price(rates: Rates, tie: Tie, size: u32) -> u64
    requires rates { AreRates rates }
    requires size { size ≤ 20 }
    ensures same { result ≡ price rates tie size }
    ensures small { result ≤ 1000000 }
{
    match tie {
        Tie::Held => u64::from(rates.latency),
        Tie::Enters => u64::from(rates.latency),
        _ => u64::from(size) * u64::from(rates.per_byte),
    }
}

fn weight(code: &Code, counts: &Counts, rates: Rates, dependence: &Dependence) -> u64
    requires few { AreFew counts.now }
    requires rates { AreRates rates }
    requires size { dependence.now.size ≤ 20 }
    ensures same { result ≡ weight code.now counts.now rates dependence.now }
    ensures small { result < 2 ^ 52 }
{
    let times = passes(code, counts, dependence.from, dependence.to, dependence.tie);
    times * price(rates, dependence.tie, dependence.size)
}

/// The edge for a dependence.
pub fn weighed(code: &Code, counts: &Counts, rates: Rates, dependence: &Dependence) -> Edge
    requires few { AreFew counts.now }
    requires rates { AreRates rates }
    requires size { dependence.now.size ≤ 20 }
    ensures same { result ≡ weighed code.now counts.now rates dependence.now }
    ensures small { result.weight < 2 ^ 52 }
{
    Edge {
        kind: kind_of(dependence.tie),
        from: end_of(dependence.from),
        to: dependence.to,
        weight: weight(code, counts, rates, dependence),
    }
}
