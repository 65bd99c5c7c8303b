//! How often nodes run, by a profile.
ghost use Rattle.std.specs.Prelude.{◌≡◌, ◌<◌, ◌^◌, slice_get};
ghost use Rattle.px_normal.specs.First.{numbered};
ghost use Rattle.px_partition.specs.Runs.{begun_in, completed_in, entered_in, by_job_in, ended_in, told, told_by, job_calls_by, counter_of, runs, job_calls, AreFew};

use px_code::{Counts, MethodCount, StatementCount};
use px_normal::{Code, Counter, Node};

fn begun(counts: &[StatementCount], id: u32) -> u64
    ensures { result ≡ begun_in (slice_get counts.now id) }
{
    match sqlite_items::at(counts, id as usize) {
        Some(count) => count.begun,
        None => 0,
    }
}

fn completed(counts: &[StatementCount], id: u32) -> u64
    ensures { result ≡ completed_in (slice_get counts.now id) }
{
    match sqlite_items::at(counts, id as usize) {
        Some(count) => count.completed,
        None => 0,
    }
}

fn entered(counts: &[MethodCount], method: u16) -> u64
    ensures { result ≡ entered_in (numbered counts.now method) }
{
    if method == 0 {
        return 0;
    }
    match sqlite_items::at(counts, usize::from(method - 1)) {
        Some(count) => count.entered,
        None => 0,
    }
}

fn by_job(counts: &[MethodCount], method: u16) -> u64
    ensures { result ≡ by_job_in (numbered counts.now method) }
{
    if method == 0 {
        return 0;
    }
    match sqlite_items::at(counts, usize::from(method - 1)) {
        Some(count) => count.by_job,
        None => 0,
    }
}

fn ended(counts: &[MethodCount], method: u16) -> u64
    ensures { result ≡ ended_in (numbered counts.now method) }
{
    if method == 0 {
        return 0;
    }
    match sqlite_items::at(counts, usize::from(method - 1)) {
        Some(count) => count.ended,
        None => 0,
    }
}

fn told(counts: &Counts, counter: Counter) -> u64
    ensures { result ≡ told counts.now counter }
{
    match counter {
        Counter::Begun(id) => begun(counts.statements.as_slice(), id),
        Counter::Completed(id) => completed(counts.statements.as_slice(), id),
        Counter::Entered(method) => entered(counts.methods.as_slice(), method),
        Counter::ReachedEnd(method) => ended(counts.methods.as_slice(), method),
    }
}

/// What a node's counter tells.
pub fn told_by(counts: &Counts, counter: Option<Counter>) -> u64
    requires few { AreFew counts.now }
    ensures same { result ≡ told_by counts.now counter }
    ensures few { result < 2 ^ 32 }
{
    match counter {
        Some(counter) => told(counts, counter),
        None => 0,
    }
}

fn job_calls_by(counts: &Counts, counter: Option<Counter>) -> u64
    requires few { AreFew counts.now }
    ensures same { result ≡ job_calls_by counts.now counter }
    ensures few { result < 2 ^ 32 }
{
    match counter {
        Some(Counter::Entered(method)) => by_job(counts.methods.as_slice(), method),
        _ => 0,
    }
}

fn counter_of(nodes: &[Node], node: u32) -> Option<Counter>
    ensures { result ≡ counter_of (numbered nodes.now node) }
{
    if node == 0 {
        return None;
    }
    match sqlite_items::at(nodes, node as usize - 1) {
        Some(node) => node.counter,
        None => None,
    }
}

/// How often a node runs.
pub fn runs(code: &Code, counts: &Counts, node: u32) -> u64
    requires few { AreFew counts.now }
    ensures same { result ≡ runs code.now counts.now node }
    ensures few { result < 2 ^ 32 }
{
    told_by(counts, counter_of(code.nodes.as_slice(), node))
}

/// How often the job calls the method of a node.
pub fn job_calls(code: &Code, counts: &Counts, node: u32) -> u64
    requires few { AreFew counts.now }
    ensures same { result ≡ job_calls code.now counts.now node }
    ensures few { result < 2 ^ 32 }
{
    job_calls_by(counts, counter_of(code.nodes.as_slice(), node))
}
