//! Job files: the settings of a run, the rows of its tables, the parts that split its program, and the
//! calls, loads and order of its sessions.
#![tactic(auto)]

mod arguments;
mod beyond;
mod calls;
mod cells;
mod draft;
mod entries;
mod groups;
mod index;
mod job;
mod judge;
mod keys;
mod laws;
mod lines;
mod loads;
mod names;
mod numbers;
mod parts;
mod places;
mod placing;
mod prints;
mod read;
mod rows;
mod settings;
mod texts;
mod titles;
mod verbs;
mod words;

pub use beyond::{first_beyond, first_budget};
pub use job::{Call, Job, JobCode, JobError, JobFault, Part, Row};
pub use laws::{
    jobs_fit, lines_are_filed, taken_is_of_one_session, texts_are_short, words_are_spelled,
};
pub use placing::sides_of;
pub use read::read_job;
pub use settings::Settings;
