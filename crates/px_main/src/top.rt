//! The top call.
ghost use Rattle.std.specs.Prelude.{◌≡◌, ◌≢◌, ◌↔◌, ◌≤◌, ◌⊎◌, ℕ, None, map, IfOk, IfSome};
ghost use Rattle.px_outside.specs.Causes.{Rose};
ghost use Rattle.px_main.specs.Commands.{command_of, told_by, Checks, Serves};
ghost use Rattle.px_main.specs.Answers.{Fixes, FixesStatus, FixesStatusBoth, FixesStatusCheck};
ghost use Rattle.px_main.specs.Read.{IsAfterReading};
ghost use Rattle.px_main.specs.Ends.{Ends, TookNothing};

use crate::answer::{Prepared, answer, check_answer};
use crate::command::{Command, Kind, read_command};
use crate::files::{Stop, file};
use px_outside::{Shelf, Sink, write_all};
use std::alloc::Global;

/// Does the command of the words, and answers its status: 0 done, 1 the words are no command,
/// 2 a file couldn't be read, 3 the text couldn't be written, 4 out of memory, 5 the program is
/// refused, 6 the job is refused.
pub fn still<S: Shelf, K: Sink>(alloc: Global, words: &[&str], shelf: &mut S, sink: &mut K) -> u8
    // The words are no command, and nothing is written.
    ensures usage { (result ≡ 1) ↔ (command_of (map (λ w. w.now) words.now) ≡ None) }
    ensures usage_text { result ≡ 1 → TookNothing (K.taken sink.old) (K.taken sink.new) }
    // Else it ends as the files say: where it isn't 2 or 4, all of them were read, and no read failed.
    ensures command { IfSome (command_of (map (λ w. w.now) words.now)) (λ c.
        Ends (IsAfterReading c (S.holds shelf.old) (S.faults shelf.old) (S.faults shelf.new) (S.handed shelf.old) (S.handed shelf.new)) (Fixes c (S.holds shelf.old)) (FixesStatus c (S.holds shelf.old)) result
        (S.faults shelf.old) (S.faults shelf.new) (K.faults sink.old) (K.faults sink.new) (K.taken sink.old) (K.taken sink.new)) }
{
    match read_command(words) {
        Some(command) => run_command(alloc, command, shelf, sink),
        None => 1,
    }
}

const MAX_PROGRAM: u32 = 1048576;

const MAX_JOB: u32 = 16777216;

fn prepare_check<S: Shelf>(alloc: Global, program: &str, shelf: &mut S) -> Result<Prepared, Stop>
    ensures told { IfOk result (λ r. IsAfterReading (Checks program.now) (S.holds shelf.old) (S.faults shelf.old) (S.faults shelf.new) (S.handed shelf.old) (S.handed shelf.new) (r.status, r.text.items)) }
    ensures fixed { IfOk result (λ r. (n : ℕ) → FixesStatusCheck (S.holds shelf.old program.now) n → n ≡ r.status) }
    ensures later { S.faults shelf.old ≤ S.faults shelf.new }
    ensures fault { result ≡ Err Stop.ReadFault → Rose (S.faults shelf.old) (S.faults shelf.new) }
    ensures status { IfOk result (λ r. (r.status ≡ 0) ⊎ ((5 ≤ r.status) × (r.status ≤ 6))) }
{
    let program = file(alloc, shelf, program, MAX_PROGRAM)?;
    match check_answer(alloc, &program) {
        Ok(answer) => Ok(answer),
        Err(_) => Err(Stop::NoMemory),
    }
}

fn prepare_serve<S: Shelf>(
    alloc: Global,
    kind: Kind,
    program: &str,
    job: &str,
    shelf: &mut S,
) -> Result<Prepared, Stop>
    ensures told { IfOk result (λ r. IsAfterReading (Serves kind program.now job.now) (S.holds shelf.old) (S.faults shelf.old) (S.faults shelf.new) (S.handed shelf.old) (S.handed shelf.new) (r.status, r.text.items)) }
    ensures fixed { IfOk result (λ r. (n : ℕ) → FixesStatusBoth kind (S.holds shelf.old program.now) (S.holds shelf.old job.now) n → n ≡ r.status) }
    ensures later { S.faults shelf.old ≤ S.faults shelf.new }
    ensures fault { result ≡ Err Stop.ReadFault → Rose (S.faults shelf.old) (S.faults shelf.new) }
    ensures status { IfOk result (λ r. (r.status ≡ 0) ⊎ ((5 ≤ r.status) × (r.status ≤ 6))) }
{
    let program = file(alloc, shelf, program, MAX_PROGRAM)?;
    let job = file(alloc, shelf, job, MAX_JOB)?;
    match answer(alloc, kind, &program, &job) {
        Ok(answer) => Ok(answer),
        Err(_) => Err(Stop::NoMemory),
    }
}

fn prepare<S: Shelf>(alloc: Global, command: Command, shelf: &mut S) -> Result<Prepared, Stop>
    ensures told { IfOk result (λ r. IsAfterReading (told_by command.entry) (S.holds shelf.old) (S.faults shelf.old) (S.faults shelf.new) (S.handed shelf.old) (S.handed shelf.new) (r.status, r.text.items)) }
    ensures fixed { IfOk result (λ r. (n : ℕ) → FixesStatus (told_by command.entry) (S.holds shelf.old) n → n ≡ r.status) }
    ensures later { S.faults shelf.old ≤ S.faults shelf.new }
    ensures fault { result ≡ Err Stop.ReadFault → Rose (S.faults shelf.old) (S.faults shelf.new) }
    ensures status { IfOk result (λ r. (r.status ≡ 0) ⊎ ((5 ≤ r.status) × (r.status ≤ 6))) }
{
    match command {
        Command::Check { program } => prepare_check(alloc, program, shelf),
        Command::Serve { kind, program, job } => prepare_serve(alloc, kind, program, job, shelf),
    }
}

#[tactic(auto, using(crate::proofs::Answers::fixes_once))]
fn run_command<S: Shelf, K: Sink>(
    alloc: Global,
    command: Command,
    shelf: &mut S,
    sink: &mut K,
) -> u8
    ensures ends { Ends (IsAfterReading (told_by command.entry) (S.holds shelf.old) (S.faults shelf.old) (S.faults shelf.new) (S.handed shelf.old) (S.handed shelf.new)) (Fixes (told_by command.entry) (S.holds shelf.old)) (FixesStatus (told_by command.entry) (S.holds shelf.old)) result
        (S.faults shelf.old) (S.faults shelf.new) (K.faults sink.old) (K.faults sink.new) (K.taken sink.old) (K.taken sink.new) }
    ensures not_usage { result ≢ 1 }
{
    match prepare(alloc, command, shelf) {
        Err(Stop::ReadFault) => 2,
        Err(Stop::NoMemory) => 4,
        Ok(answer) => match write_all(sink, answer.text.as_slice()) {
            Ok(()) => answer.status,
            Err(_) => { if answer.status == 0 { 3 } else { answer.status } }
        },
    }
}
