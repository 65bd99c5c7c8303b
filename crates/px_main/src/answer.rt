//! The answer over two files.
ghost use Rattle.std.specs.Prelude.{◌≡◌, ◌≤◌, length, IfOk, IfSome};
ghost use Rattle.std.specs.Option.{option_map};
ghost use Rattle.px_job.specs.Jobs.{Gives};
ghost use Rattle.px_main.specs.Whole.{JudgesWhole};
ghost use Rattle.px_main.specs.Known.{IsKnown, IsSplit};
ghost use Rattle.px_lowering.specs.Programs.{lowered};
ghost use Rattle.px_flow_points.specs.There.{NumbersExist};
ghost use Rattle.px_parts.specs.Texts.{AreOwn, IsSplitText};
ghost use Rattle.px_main.specs.Answers.{IsAnswer, IsAnswerBy, IsChecked, JudgesSplit, answers_run, answers_split, answers_solo, taken_job, split_job_for, solo_job_for, AnswersJob, refused_program, refused_job, refused_by, program_code as code_of_program, job_code as code_of_job, max_program, max_job};

use crate::command::Kind;
use crate::fault::{Fault, ProgramCode};
use crate::judge::{Split, judge_split};
use crate::run::run;
use crate::solo::solo;
use crate::whole::judge_whole;
use px_facts::Checked;
use px_job::{Job, JobCode, JobError, JobFault, Part, first_beyond, first_budget, read_job};
use px_lowering::lower;
use px_normal::Code;
use px_parts::split_text;
use px_report::refusal_text;
use std::alloc::{AllocError, Global};

/// A status, and all that is to be written with it.
#[derive(Debug, Drop)]
pub struct Prepared {
    pub status: u8,
    pub text: Vec<u8>,
}

fn program_code(alloc: Global, code: ProgramCode) -> Result<String, AllocError>
    ensures { IfOk result (λ text. text.bytes.items ≡ code_of_program code) }
{
    match code {
        ProgramCode::TooLong => format!(in alloc; "TooLong"),
        ProgramCode::Syntax => format!(in alloc; "Syntax"),
        ProgramCode::Rule(number) => format!(in alloc; "T{number}"),
        ProgramCode::Later => format!(in alloc; "Later"),
    }
}

fn job_code(code: JobCode) -> &'static [u8]
    ensures { result.now ≡ code_of_job code }
{
    match code {
        JobCode::Later => b"Later",
        JobCode::J1 => b"J1",
        JobCode::J3 => b"J3",
        JobCode::J4 => b"J4",
        JobCode::J5 => b"J5",
        JobCode::J6 => b"J6",
        JobCode::J7 => b"J7",
        JobCode::J8 => b"J8",
        JobCode::J9 => b"J9",
        JobCode::J10 => b"J10",
        JobCode::J11 => b"J11",
        JobCode::J12 => b"J12",
        JobCode::J13 => b"J13",
        JobCode::J14 => b"J14",
        JobCode::J15 => b"J15",
        JobCode::J16 => b"J16",
        JobCode::J17 => b"J17",
        JobCode::J18 => b"J18",
        JobCode::J19 => b"J19",
        JobCode::J20 => b"J20",
    }
}

fn program_refused(alloc: Global, fault: Fault) -> Result<Prepared, AllocError>
    ensures { IfOk result (λ a. (a.status, a.text.items) ≡ refused_program fault) }
{
    let code = program_code(alloc, fault.code)?;
    let text = refusal_text(alloc, b"program", fault.line, code.as_bytes())?;
    Ok(Prepared { status: 5, text })
}

fn job_refused(alloc: Global, line: u32, code: &[u8]) -> Result<Prepared, AllocError>
    ensures { IfOk result (λ a. (a.status, a.text.items) ≡ refused_job line code.now) }
{
    let text = refusal_text(alloc, b"job", line, code)?;
    Ok(Prepared { status: 6, text })
}

fn refused(alloc: Global, fault: JobFault) -> Result<Prepared, AllocError>
    ensures { IfOk result (λ a. (a.status, a.text.items) ≡ refused_by fault) }
{
    job_refused(alloc, fault.line, job_code(fault.code))
}

fn answer_run(alloc: Global, checked: &Checked, bytes: &[u8]) -> Result<Prepared, AllocError>
    requires { length bytes.now ≤ max_job }
    ensures { IfOk result (λ a. answers_run checked.now bytes.now (a.status, a.text.items)) }
{
    let code = lower(alloc, checked)?;
    match read_job(alloc, bytes, checked, &checked.schema, &code) {
        Ok(job) => {
            let text = run(alloc, checked, &job)?;
            Ok(Prepared { status: 0, text })
        }
        Err(JobError::Fault(fault)) => refused(alloc, fault),
        Err(JobError::NoMemory) => Err(AllocError),
    }
}

// A job that is read, unless its command doesn't take the line yet.
fn unless_later(job: Job, beyond: Option<u32>) -> Result<Job, JobError>
    ensures { Gives result (taken_job beyond job) }
{
    match beyond {
        None => Ok(job),
        Some(line) => {
            let code = JobCode::Later;
            Err(JobError::Fault(JobFault { line, code }))
        }
    }
}

// A job whose parts have no budgets.
fn read_placed(alloc: Global, checked: &Checked, code: &Code, bytes: &[u8]) -> Result<Job, JobError>
    requires code { code.now ≡ lowered checked.now }
    requires fits { length bytes.now ≤ max_job }
    ensures { Gives result (split_job_for checked.now bytes.now) }
{
    let job = read_job(alloc, bytes, checked, &checked.schema, code)?;
    unless_later(job, first_budget(bytes))
}

// The texts of the parts of a job.
fn show_parts(alloc: Global, code: &Code, parts: &[Part]) -> Result<Prepared, AllocError>
    requires numbers { NumbersExist code.now }
    requires own { AreOwn code.now }
    ensures { IfOk result (λ a. (a.status ≡ 0) × IsSplitText code.now parts.now a.text.items) }
{
    let text = split_text(alloc, code, parts)?;
    Ok(Prepared { status: 0, text })
}

fn answer_parts(
    alloc: Global,
    checked: &Checked,
    code: &Code,
    bytes: &[u8],
) -> Result<Prepared, AllocError>
    requires known { IsKnown checked.now }
    requires code { code.now ≡ lowered checked.now }
    requires fits { length bytes.now ≤ max_job }
    ensures { IfOk result (λ a. answers_split checked.now bytes.now (a.status, a.text.items)) }
{
    match read_placed(alloc, checked, code, bytes) {
        Ok(job) => show_parts(alloc, code, job.parts.as_slice()),
        Err(JobError::Fault(fault)) => refused(alloc, fault),
        Err(JobError::NoMemory) => Err(AllocError),
    }
}

fn answer_split(alloc: Global, checked: &Checked, bytes: &[u8]) -> Result<Prepared, AllocError>
    requires known { IsKnown checked.now }
    requires fits { length bytes.now ≤ max_job }
    ensures { IfOk result (λ a. answers_split checked.now bytes.now (a.status, a.text.items)) }
{
    let code = lower(alloc, checked)?;
    answer_parts(alloc, checked, &code, bytes)
}

// A job that two ends take.
fn read_taken(alloc: Global, split: &Split, bytes: &[u8]) -> Result<Job, JobError>
    requires split { IsSplit split.now }
    requires fits { length bytes.now ≤ max_job }
    ensures { Gives result (solo_job_for split.now.checked bytes.now) }
{
    let Split { checked, code, .. } = split;
    let job = read_job(alloc, bytes, checked, &checked.schema, code)?;
    unless_later(job, first_beyond(bytes))
}

fn answer_solo(alloc: Global, split: Split, bytes: &[u8]) -> Result<Prepared, AllocError>
    requires split { IsSplit split }
    requires fits { length bytes.now ≤ max_job }
    ensures { IfOk result (λ a. answers_solo split.checked bytes.now (a.status, a.text.items)) }
{
    match read_taken(alloc, &split, bytes) {
        Ok(job) => {
            let Split {
                checked,
                simple,
                ..
            } = split;
            let text = solo(alloc, &checked, simple, &job)?;
            Ok(Prepared { status: 0, text })
        }
        Err(JobError::Fault(fault)) => refused(alloc, fault),
        Err(JobError::NoMemory) => Err(AllocError),
    }
}

// The answer of `run` for a program that is accepted.
fn run_job(alloc: Global, checked: &Checked, job: &Option<Vec<u8>>) -> Result<Prepared, AllocError>
    requires { IfSome job.now (λ bytes. length bytes.items ≤ max_job) }
    ensures { IfOk result (λ a. AnswersJob answers_run checked.now (option_map (λ v. v.items) job.now) (a.status, a.text.items)) }
{
    match job {
        Some(bytes) => answer_run(alloc, checked, bytes.as_slice()),
        None => job_refused(alloc, 0, b"J2"),
    }
}

// The answer of `split` for a program that is accepted.
fn split_job(
    alloc: Global,
    checked: &Checked,
    job: &Option<Vec<u8>>,
) -> Result<Prepared, AllocError>
    requires known { IsKnown checked.now }
    requires fits { IfSome job.now (λ bytes. length bytes.items ≤ max_job) }
    ensures { IfOk result (λ a. AnswersJob answers_split checked.now (option_map (λ v. v.items) job.now) (a.status, a.text.items)) }
{
    match job {
        Some(bytes) => answer_split(alloc, checked, bytes.as_slice()),
        None => job_refused(alloc, 0, b"J2"),
    }
}

// The answer of `solo` for a program that is accepted.
fn solo_job(alloc: Global, split: Split, job: &Option<Vec<u8>>) -> Result<Prepared, AllocError>
    requires split { IsSplit split }
    requires fits { IfSome job.now (λ bytes. length bytes.items ≤ max_job) }
    ensures { IfOk result (λ a. AnswersJob answers_solo split.checked (option_map (λ v. v.items) job.now) (a.status, a.text.items)) }
{
    match job {
        Some(bytes) => answer_solo(alloc, split, bytes.as_slice()),
        None => job_refused(alloc, 0, b"J2"),
    }
}

fn run_answer(
    alloc: Global,
    program: &Option<Vec<u8>>,
    job: &Option<Vec<u8>>,
) -> Result<Prepared, AllocError>
    requires program { IfSome program.now (λ bytes. length bytes.items ≤ max_program) }
    requires job { IfSome job.now (λ bytes. length bytes.items ≤ max_job) }
    ensures { IfOk result (λ a. IsAnswerBy JudgesWhole answers_run (option_map (λ v. v.items) program.now) (option_map (λ v. v.items) job.now) (a.status, a.text.items)) }
{
    match judge_whole(alloc, program)? {
        Ok(checked) => run_job(alloc, &checked, job),
        Err(fault) => program_refused(alloc, fault),
    }
}

fn split_answer(
    alloc: Global,
    program: &Option<Vec<u8>>,
    job: &Option<Vec<u8>>,
) -> Result<Prepared, AllocError>
    requires program { IfSome program.now (λ bytes. length bytes.items ≤ max_program) }
    requires job { IfSome job.now (λ bytes. length bytes.items ≤ max_job) }
    ensures { IfOk result (λ a. IsAnswerBy JudgesWhole answers_split (option_map (λ v. v.items) program.now) (option_map (λ v. v.items) job.now) (a.status, a.text.items)) }
{
    match judge_whole(alloc, program)? {
        Ok(checked) => split_job(alloc, &checked, job),
        Err(fault) => program_refused(alloc, fault),
    }
}

fn solo_answer(
    alloc: Global,
    program: &Option<Vec<u8>>,
    job: &Option<Vec<u8>>,
) -> Result<Prepared, AllocError>
    requires program { IfSome program.now (λ bytes. length bytes.items ≤ max_program) }
    requires job { IfSome job.now (λ bytes. length bytes.items ≤ max_job) }
    ensures { IfOk result (λ a. IsAnswerBy JudgesSplit answers_solo (option_map (λ v. v.items) program.now) (option_map (λ v. v.items) job.now) (a.status, a.text.items)) }
{
    match judge_split(alloc, program)? {
        Ok(split) => solo_job(alloc, split, job),
        Err(fault) => program_refused(alloc, fault),
    }
}

/// The answer over what was kept of both files.
pub fn answer(
    alloc: Global,
    kind: Kind,
    program: &Option<Vec<u8>>,
    job: &Option<Vec<u8>>,
) -> Result<Prepared, AllocError>
    requires program { IfSome program.now (λ bytes. length bytes.items ≤ max_program) }
    requires job { IfSome job.now (λ bytes. length bytes.items ≤ max_job) }
    ensures { IfOk result (λ a. IsAnswer kind (option_map (λ v. v.items) program.now) (option_map (λ v. v.items) job.now) (a.status, a.text.items)) }
{
    match kind {
        Kind::Run => run_answer(alloc, program, job),
        Kind::Split => split_answer(alloc, program, job),
        Kind::Solo => solo_answer(alloc, program, job),
    }
}

/// The answer to `check` over what was kept of its file.
pub fn check_answer(alloc: Global, program: &Option<Vec<u8>>) -> Result<Prepared, AllocError>
    requires { IfSome program.now (λ bytes. length bytes.items ≤ max_program) }
    ensures { IfOk result (λ a. IsChecked (option_map (λ v. v.items) program.now) (a.status, a.text.items)) }
{
    match judge_whole(alloc, program)? {
        Ok(_) => Ok(Prepared {
            status: 0,
            text: Vec::from_slice(alloc, b"ok\n")?,
        }),
        Err(fault) => program_refused(alloc, fault),
    }
}
