//! The tables that a program declares, and the statements of SQL over them.
#![tactic(auto)]

mod guess;
mod laws;
mod names;
mod over;
mod pieces;
mod read;
mod schema;
mod spelling;
mod types;
mod words;

pub use laws::{
    a_text_means_one_statement, schemas_keep_the_rule, statements_are_spelled, texts_are_read,
};
pub use read::read_statement;
pub use schema::{SchemaError, read_schema};
pub use types::{is_select, parameters};
