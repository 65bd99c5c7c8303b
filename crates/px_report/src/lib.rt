//! The texts that commands print.
#![tactic(auto)]

mod calls;
mod events;
mod heaps;
mod names;
mod prints;
mod refusal;
mod report;
mod run;
mod state;
mod tables;
mod words;

pub use calls::ShownCall;
pub use refusal::refusal_text;
pub use report::report_text;
pub use run::run_text;
