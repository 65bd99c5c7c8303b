//! Each front of a text, and each text with one byte changed, has an answer.
use super::{JOB, PROGRAM, run, sink};
use std::alloc::Global;
use std::process::Abort;
use std::test::Fail;

// Bytes that begin or end something, or are in no text.
const BYTES: &[u8] = b"\0\t\r\n\"\\/*{9\x7f\x80\xff";

fn is_answer(status: u8, text: &[u8]) -> bool {
    match status {
        0 => text.starts_with(b"calls\n") && text.ends_with(b"done\n"),
        5 => text.starts_with(b"program ") && text.ends_with(b"\n"),
        6 => text.starts_with(b"job ") && text.ends_with(b"\n"),
        _ => false,
    }
}

fn answers(rt: &impl Abort, alloc: Global, program: &[u8], job: &[u8]) -> Result<(), Fail> {
    let mut sink = sink(alloc);
    let status = run(alloc, program, job, &mut sink)?;
    assert!(rt;
        is_answer(status, sink.taken()),
        "{status} at {program:?} {job:?}"
    );
    Ok(())
}

#[test]
fn fronts_are_answered(rt: HostRuntime) -> Result<(), Fail> {
    let program = PROGRAM.as_bytes();
    for length in 0..program.len() {
        answers(&rt, rt.alloc(), &program[..length], JOB.as_bytes())?;
    }
    let job = JOB.as_bytes();
    for length in 0..job.len() {
        answers(&rt, rt.alloc(), program, &job[..length])?;
    }
    Ok(())
}

#[test]
fn changed_programs_are_answered(rt: HostRuntime) -> Result<(), Fail> {
    for place in 0..PROGRAM.len() {
        for byte in BYTES {
            let mut program = PROGRAM.as_bytes().to_vec(rt.alloc())?;
            program[place] = *byte;
            answers(&rt, rt.alloc(), program.as_slice(), JOB.as_bytes())?;
        }
    }
    Ok(())
}

#[test]
fn changed_jobs_are_answered(rt: HostRuntime) -> Result<(), Fail> {
    for place in 0..JOB.len() {
        for byte in BYTES {
            let mut job = JOB.as_bytes().to_vec(rt.alloc())?;
            job[place] = *byte;
            answers(&rt, rt.alloc(), PROGRAM.as_bytes(), job.as_slice())?;
        }
    }
    Ok(())
}
