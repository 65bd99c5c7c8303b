//! What the rules of the language find in a program file.
ghost use Rattle.std.specs.Prelude.{◌≡◌, ◌≤◌, length, IfSome, IfOk, slice_get};
ghost use Rattle.std.specs.Option.{option_map};
ghost use Rattle.px_types.specs.Programs.{first_breach_of};
ghost use Rattle.px_sql.specs.Tables.{schema_of};
ghost use Rattle.px_main.specs.Answers.{max_program};
ghost use Rattle.px_main.specs.Whole.{by_rules, by_tables, table_line, IsFound, JudgesWhole};

use crate::fault::{Fault, ProgramCode};
use px_facts::Checked;
use px_parse::{ParseError, line_at, parse};
use px_sql::{SchemaError, read_schema};
use px_tree::Program;
use px_types::{CheckError, check};
use px_value::Schema;
use sqlite_items::at;
use std::alloc::{AllocError, Global};

// A program over its tables.
fn check_over(
    alloc: Global,
    program: Program,
    schema: Schema,
) -> Result<Result<Checked, Fault>, AllocError>
    ensures { IfOk result (λ found. found ≡ by_rules program schema (first_breach_of schema program)) }
{
    match check(alloc, program, schema) {
        Ok(checked) => Ok(Ok(checked)),
        Err(CheckError::TypeFault { line, code }) => {
            let code = ProgramCode::Rule(code);
            Ok(Err(Fault { line, code }))
        }
        Err(CheckError::NoMemory) => Err(AllocError),
    }
}

// The line of a table.
fn line_of_table(program: &Program, index: u32) -> u32
    ensures { result ≡ table_line program.now (slice_get program.now.tables index) }
{
    match at(program.tables.as_slice(), index as usize) {
        Some(table) => line_at(program.tokens.as_slice(), table.name.token as usize),
        None => 0,
    }
}

fn check_program(alloc: Global, program: Program) -> Result<Result<Checked, Fault>, AllocError>
    ensures { IfOk result (λ found. found ≡ by_tables program (schema_of program.tables)) }
{
    match read_schema(alloc, program.tables.as_slice()) {
        Ok(schema) => check_over(alloc, program, schema),
        Err(SchemaError::BadTable { index }) => {
            let line = line_of_table(&program, index);
            let code = ProgramCode::Rule(16);
            Ok(Err(Fault { line, code }))
        }
        Err(SchemaError::NoMemory) => Err(AllocError),
    }
}

/// A text with all that is known of it, or what is wrong with it.
fn find(alloc: Global, bytes: &[u8]) -> Result<Result<Checked, Fault>, AllocError>
    requires { length bytes.now ≤ max_program }
    ensures { IfOk result (λ found. IsFound bytes.now found) }
{
    match parse(alloc, bytes) {
        Ok(program) => check_program(alloc, program),
        Err(ParseError::Syntax { line }) => {
            let code = ProgramCode::Syntax;
            Ok(Err(Fault { line, code }))
        }
        Err(ParseError::NoMemory) => Err(AllocError),
    }
}

/// Judges what was kept of a program file; nothing was kept where it is too long.
pub fn judge_whole(
    alloc: Global,
    bytes: &Option<Vec<u8>>,
) -> Result<Result<Checked, Fault>, AllocError>
    requires { IfSome bytes.now (λ bytes. length bytes.items ≤ max_program) }
    ensures { IfOk result (λ found. JudgesWhole (option_map (λ bytes. bytes.items) bytes.now) found) }
{
    match bytes {
        Some(bytes) => find(alloc, bytes.as_slice()),
        None => {
            let code = ProgramCode::TooLong;
            Ok(Err(Fault { line: 0, code }))
        }
    }
}
