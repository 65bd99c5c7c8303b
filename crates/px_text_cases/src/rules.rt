//! What of the type rules and of SQL no clause says: which reading of a rule is meant. A case is a text and the line and the
//! code of its first breach.
use px_parse::{line_at, parse};
use px_sql::{SchemaError, read_schema};
use px_tree::Program;
use px_types::{CheckError, check};
use sqlite_items::at;
use std::alloc::{AllocError, Global};
use std::process::Abort;
use std::test::Fail;

/// The line and the code of a breach; none where all rules are kept.
pub type Found = Option<(u32, u8)>;

/// Statements of a method, and what is found in the program around them.
pub type Case = (&'static str, Found);

fn line_of_table(program: &Program, index: u32) -> u32 {
    match at(program.tables.as_slice(), index as usize) {
        Some(table) => line_at(program.tokens.as_slice(), table.name.token as usize),
        None => 0,
    }
}

fn judge_program(alloc: Global, program: Program) -> Result<Found, AllocError> {
    match read_schema(alloc, program.tables.as_slice()) {
        Ok(schema) => match check(alloc, program, schema) {
            Ok(_) => Ok(None),
            Err(CheckError::TypeFault { line, code }) => Ok(Some((line, code))),
            Err(CheckError::NoMemory) => Err(AllocError),
        },
        Err(SchemaError::BadTable { index }) => Ok(Some((line_of_table(&program, index), 16))),
        Err(SchemaError::NoMemory) => Err(AllocError),
    }
}

// The most bytes of a text that these tests read, as of a file.
const MOST: usize = 1_048_576;

/// The program of a text.
pub fn read_program(alloc: Global, text: &[u8]) -> Result<Program, Fail> {
    if text.len() <= MOST {
        Ok(parse(alloc, text)?)
    } else {
        Err(AllocError)?
    }
}

/// What the rules find in a program.
pub fn judge(alloc: Global, text: &[u8]) -> Result<Found, Fail> {
    let program = read_program(alloc, text)?;
    Ok(judge_program(alloc, program)?)
}

/// Judges each case between a begin and an end of a program.
pub fn all(
    rt: &impl Abort,
    alloc: Global,
    begin: &str,
    end: &str,
    cases: &[Case],
) -> Result<(), Fail> {
    for (statements, wanted) in cases {
        let text = format!(in alloc; "{begin}{statements}{end}")?;
        let found = judge(alloc, text.as_bytes())?;
        assert_eq!(rt; found, *wanted, "{statements}");
    }
    Ok(())
}
