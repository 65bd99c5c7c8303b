//! Where sends stand.
ghost use Rattle.std.specs.Prelude.{◌≡◌, IfOk};
ghost use Rattle.px_code.specs.Places.{other as other_side};
ghost use Rattle.px_compile.specs.Cutting.{writes_kept, send_of, statement_of};

use crate::copying::copy_word;
use crate::facts::Facts;
use crate::sides::{field_node, side_at};
use px_code::{Code, Operand, Send, Side, Statement, Tree, Word};
use std::alloc::{AllocError, Global};

fn other(side: Side) -> Side
    ensures { result ≡ other_side side }
{
    match side {
        Side::App => Side::Db,
        Side::Db => Side::App,
    }
}

// Whether a write of a field, through this slot, is of one that the other side keeps.
fn is_kept_beyond(
    facts: &Facts,
    sides: &[Side],
    method: u16,
    node: u32,
    of: u16,
    field: u16,
) -> bool
    ensures { result ≡ writes_kept facts.now sides.now method node of field }
{
    facts.points.slot(method, of) && facts.kept.has(other(side_at(sides, node)), field)
}

// The send that follows a statement.
fn send(
    code: &Code,
    sides: &[Side],
    facts: &Facts,
    method: u16,
    node: u32,
    word: &Word,
) -> Option<Send>
    ensures { result ≡ send_of code.now sides.now facts.now method node word.now }
{
    match word {
        Word::Put {
            of: Operand::Slot(of),
            class,
            field,
            value: _,
        } => {
            if !is_kept_beyond(facts, sides, method, node, *of, *field) {
                return None;
            }
            Some(Send {
                home: side_at(sides, field_node(code, *class, *field)),
                object: Operand::Slot(*of),
            })
        }
        _ => None,
    }
}

/// A statement of a block, with its send.
pub fn statement(
    alloc: Global,
    code: &Code,
    sides: &[Side],
    facts: &Facts,
    method: u16,
    tree: &Tree,
) -> Result<Statement, AllocError>
    ensures { IfOk result (λ s. s ≡ statement_of code.now sides.now facts.now method tree.now) }
{
    match tree {
        Tree::Do { node, word } => Ok(Statement {
            node: *node,
            word: copy_word(alloc, word)?,
            send: send(code, sides, facts, method, *node, word),
        }),
    }
}
