//! The sends of a program at a placement, as text.
ghost use Rattle.std.specs.Prelude.{IfOk, IfSome};
ghost use Rattle.px_flow_points.specs.There.{NumbersExist};

use px_blocks::{Placed, Send, SendKind, Side};
use px_flow_points::points_to;
use px_lowering::lower;
use px_normal::{Code, Operand};
use px_parse::parse;
use px_plan::{CompileError, compile};
use px_sql::read_schema;
use px_types::check;
use sqlite_items::Items;
use std::alloc::{AllocError, Global};

// The most bytes of a text that these tests read, as of a file.
const MOST: usize = 1_048_576;

fn is_among(node: usize, at_db: &[u32]) -> bool {
    for other in at_db {
        if *other as usize == node {
            return true;
        }
    }
    false
}

// These nodes are at DB, and all others at APP.
fn sides_of(alloc: Global, count: usize, at_db: &[u32]) -> Result<Items<Side>, AllocError> {
    let mut sides = Items::new(alloc);
    for before in 0..count {
        let side = if is_among(before + 1, at_db) {
            Side::Db
        } else {
            Side::App
        };
        sides.push(side)?;
    }
    Ok(sides)
}

fn kind_name(kind: SendKind) -> &'static str {
    match kind {
        SendKind::App => "app",
        SendKind::Db => "db",
        SendKind::Native => "all",
    }
}

fn put(alloc: Global, text: &mut String, node: usize, send: &Send) -> Result<(), AllocError> {
    let name = kind_name(send.kind);
    if let Operand::Slot(slot) = send.object {
        text.push_str(format!(in alloc; "{node} {name} %{slot}; ")?.as_str())?;
    }
    Ok(())
}

fn text_of(alloc: Global, placed: &Placed) -> Result<String, AllocError> {
    let mut text = String::new(alloc);
    for (at, send) in placed.sends.as_slice().iter().enumerate() {
        if let Some(send) = send {
            put(alloc, &mut text, at + 1, send)?;
        }
    }
    Ok(text)
}

fn placed_text(alloc: Global, code: &Code, at_db: &[u32]) -> Result<String, AllocError>
    requires { NumbersExist code.now }
{
    let points = points_to(alloc, code)?;
    let sides = sides_of(alloc, code.nodes.len(), at_db)?;
    match compile(alloc, code, &points, sides) {
        Ok(compiled) => text_of(alloc, &compiled.placed),
        Err(CompileError::Unpinned { node }) => format!(in alloc; "unpinned {node}"),
        Err(CompileError::NoMemory) => Err(AllocError),
    }
}

// The code of a program that is accepted.
fn code_of(alloc: Global, bytes: &[u8]) -> Result<Option<Code>, AllocError>
    ensures { IfOk result (λ code. IfSome code NumbersExist) }
{
    if bytes.len() > MOST {
        return Ok(None);
    }
    let Ok(program) = parse(alloc, bytes) else {
        return Ok(None);
    };
    let Ok(schema) = read_schema(alloc, program.tables.as_slice()) else {
        return Ok(None);
    };
    let Ok(checked) = check(alloc, program, schema) else {
        return Ok(None);
    };
    let code = lower(alloc, &checked)?;
    Ok(Some(code))
}

/// Nothing where the program isn't accepted.
pub fn sends_of(alloc: Global, bytes: &[u8], at_db: &[u32]) -> Result<Option<String>, AllocError> {
    let Some(code) = code_of(alloc, bytes)? else {
        return Ok(None);
    };
    let text = placed_text(alloc, &code, at_db)?;
    Ok(Some(text))
}
