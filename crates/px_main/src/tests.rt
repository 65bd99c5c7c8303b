//! Whole commands over a shelf and a sink in memory.
mod answers;
mod check;
mod damaged;
mod meaning;
mod outside;
mod rules;
mod solo;
mod split;
mod tables;

use crate::top::still;
use px_outside::{File, MemoryShelf, MemorySink, Shelf, Sink};
use std::alloc::{AllocError, Global};
use std::process::Abort;
use std::test::Fail;

const RUN: [&str; 3] = ["run", "p", "j"];

const CHECK: [&str; 2] = ["check", "p"];

const SOLO: [&str; 3] = ["solo", "p", "j"];

const PROGRAM: &str =
    "class Main { long n; public long add(long x) { long y = x * 3; n = n + y; return n - 1; } }\n";

const JOB: &str = "call 1 add 4\ncall 1 add -9223372036854775808\n";

const TEXT: &str = "calls
call 1 1 11
call 1 2 -9223372036854775797
tables
heaps
heap 1
0 Main -9223372036854775796
done
";

fn file(alloc: Global, name: &str, bytes: &[u8]) -> Result<File, AllocError> {
    Ok(File {
        name: name.as_bytes().to_vec(alloc)?,
        bytes: bytes.to_vec(alloc)?,
    })
}

// A program `p` and a job `j`, on a shelf that fails at these of its reads.
fn shelf(
    alloc: Global,
    program: &[u8],
    job: &[u8],
    fails: Vec<u32>,
) -> Result<MemoryShelf, AllocError> {
    let mut files = Vec::new(alloc);
    files.push(file(alloc, "p", program)?)?;
    files.push(file(alloc, "j", job)?)?;
    Ok(MemoryShelf::new(files, fails))
}

// The status of a command, unless there was too little memory.
fn status<S: Shelf, T: Sink>(
    alloc: Global,
    words: &[&str],
    shelf: &mut S,
    sink: &mut T,
) -> Result<u8, AllocError> {
    match still(alloc, words, shelf, sink) {
        4 => Err(AllocError),
        status => Ok(status),
    }
}

// The status of a command over these files.
fn over(
    alloc: Global,
    words: &[&str],
    program: &[u8],
    job: &[u8],
    sink: &mut MemorySink,
) -> Result<u8, AllocError> {
    let mut shelf = shelf(alloc, program, job, Vec::new(alloc))?;
    status(alloc, words, &mut shelf, sink)
}

// The status of `run` over these files.
fn run(alloc: Global, program: &[u8], job: &[u8], sink: &mut MemorySink) -> Result<u8, AllocError> {
    over(alloc, &RUN, program, job, sink)
}

// What it shows, the program, the job, the status, the text.
type Case = (&'static str, &'static str, &'static str, u8, &'static str);

fn all(rt: &impl Abort, alloc: Global, words: &[&str], cases: &[Case]) -> Result<(), Fail> {
    for (name, program, job, status, text) in cases {
        let mut sink = sink(alloc);
        let found = over(alloc, words, program.as_bytes(), job.as_bytes(), &mut sink)?;
        assert_eq!(rt; found, *status, "{name}");
        assert_eq!(rt; sink.taken(), text.as_bytes(), "{name}");
    }
    Ok(())
}

// A sink that takes all.
fn sink(alloc: Global) -> MemorySink {
    MemorySink::new(alloc, u32::MAX, Vec::new(alloc))
}
