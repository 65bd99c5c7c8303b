//! What holds of cores, and of the jobs that they are made for.
ghost use Rattle.px_core.specs.Laws.{FittingJobsAreServable, NextIsSingle, OperationsAddNext, BeginsAddNext, SomeoneIsNext};

/// A job that keeps the rules of a job file has calls of its sessions alone, and few retries.
pub fn fitting_jobs_are_servable()
    ensures { FittingJobsAreServable }
{}

/// In the history of a core a session has one next event at most, and none while it is held.
pub fn next_is_single()
    ensures { NextIsSingle }
{}

/// What `Core::op` adds is the session's next event; where it adds none, the session is held.
pub fn operations_add_next()
    ensures { OperationsAddNext }
{}

/// The same of `Core::begin`.
pub fn begins_add_next()
    ensures { BeginsAddNext }
{}

/// While a call isn't over some session has a next event.
pub fn someone_is_next()
    ensures { SomeoneIsNext }
{}
