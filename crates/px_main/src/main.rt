//! `pyxis`: checks a program of a subset of Java, and serves a job of calls of it.
#![tactic(auto)]

mod answer;
mod command;
mod fault;
mod files;
mod judge;
mod run;
mod serial;
mod solo;
#[cfg(test)]
mod tests;
mod top;
mod whole;

use crate::top::still;
use px_outside::{StdShelf, StdSink};
use std::process::ExitCode;
use std::thread::{self, Builder};
use std::{env, io};

// The status of the command that the words after the program's name are.
fn status(rt: &HostRuntime) -> io::Result<u8> {
    let alloc = rt.alloc();
    let mut owned = Vec::new(alloc);
    for word in env::args(rt)?.skip(1) {
        owned.push(word)?;
    }
    let mut words = Vec::new(alloc);
    for word in &owned {
        words.push(word.as_str())?;
    }
    let mut shelf = StdShelf::new(rt);
    let mut sink = StdSink::new(rt);
    Ok(still(alloc, words.as_slice(), &mut shelf, &mut sink))
}

fn status_or_why(rt: &HostRuntime) -> u8 {
    match status(rt) {
        Ok(status) => status,
        Err(error) if error.kind() == io::ErrorKind::OutOfMemory => 4,
        // Words that are no text are no command.
        Err(_) => 1,
    }
}

// A call may have 200 frames, each with a hundred levels of expressions and statements, which the stack of a process need not hold.
// Where a stack of this size can't be had, the process's own has to do.
const STACK: usize = 0x1000_0000;

fn main(rt: HostRuntime) -> ExitCode {
    let status = thread::scope(thread::scope_env(), &rt, |scope| {
        let served = Builder::new()
            .stack_size(STACK)
            .spawn_scoped(scope, || status_or_why(&rt));
        match served {
            Ok(handle) => handle.join(&rt),
            Err(_) => status_or_why(&rt),
        }
    });
    ExitCode::from(status)
}
