//! Where a block goes on, and where a frame goes back to.
ghost use Rattle.std.specs.Prelude.{◌≡◌};
ghost use Rattle.std.specs.Option.{option_copied};
ghost use Rattle.px_normal.specs.Words.{to_of as slot_of_word};
ghost use Rattle.px_blocks.specs.Machine.{block_at as machine_block_at, last_or, to_of_deed, to_of_last, back_of as machine_back_of, back_from as machine_back_from, onward as exit_onward, chosen as exit_chosen, entry_of as exit_entry};
ghost use Rattle.px_blocks.specs.One.{first_of as blocks_first};
ghost use Rattle.px_control.specs.Stack.{machine_back};

use crate::frame::Frame;
use crate::stack::top;
use px_blocks::{Block, Blocks, Deed, Exit, Statement};
use px_normal::Word;
use sqlite_items::at;

/// The block that comes next; after a call the one behind it.
pub fn onward(exit: Exit) -> u32
    ensures { result ≡ exit_onward exit }
{
    match exit {
        Exit::Return => 0,
        Exit::Next(next) => next,
        Exit::Branch { yes: _, no } => no,
        Exit::Call { entry: _, back } => back,
    }
}

/// The block that comes next after a choice.
pub fn chosen(exit: Exit, truth: bool) -> u32
    ensures { result ≡ exit_chosen exit truth }
{
    match exit {
        Exit::Branch { yes, no } => { if truth { yes } else { no } }
        _ => onward(exit),
    }
}

/// The first block of the method that is called.
pub fn entry_of(exit: Exit) -> u32
    ensures { result ≡ exit_entry exit }
{
    match exit {
        Exit::Call { entry, back: _ } => entry,
        _ => 0,
    }
}

/// The first block of a method, by the method's number from 1.
pub fn first_of(blocks: &Blocks, method: u16) -> u32
    ensures { result ≡ blocks_first blocks.now method }
{
    if method == 0 {
        return 0;
    }
    match at(blocks.firsts.as_slice(), usize::from(method) - 1) {
        Some(first) => *first,
        None => 0,
    }
}

/// The slot that gets the value of a word.
pub fn to_of(word: &Word) -> Option<u16>
    ensures { result ≡ slot_of_word word.now }
{
    match word {
        Word::Set { to, value: _ } => Some(*to),
        Word::Op {
            op: _,
            to,
            left: _,
            right: _,
        } => Some(*to),
        Word::Get {
            to,
            of: _,
            class: _,
            field: _,
        } => Some(*to),
        Word::Put {
            of: _,
            class: _,
            field: _,
            value: _,
        } => None,
        Word::Load {
            to,
            of: _,
            index: _,
        } => Some(*to),
        Word::Store {
            of: _,
            index: _,
            value: _,
        } => None,
        Word::Len { to, of: _ } => Some(*to),
        Word::New {
            to,
            class: _,
            site: _,
        } => Some(*to),
        Word::Array {
            to,
            element: _,
            length: _,
            site: _,
        } => Some(*to),
        Word::Call {
            to,
            of: _,
            method: _,
            args: _,
        } => *to,
        Word::Query {
            to,
            statement: _,
            site: _,
            params: _,
        } => Some(*to),
        Word::Update {
            to,
            statement: _,
            params: _,
        } => Some(*to),
        Word::Next { to, of: _ } => Some(*to),
        Word::Long {
            to,
            of: _,
            column: _,
        } => Some(*to),
        Word::Text {
            to,
            of: _,
            column: _,
        } => Some(*to),
        Word::Print(_) => None,
        Word::Return(_) => None,
    }
}

/// Where a frame goes back to: the caller's slot, and the block that comes then.
#[derive(Clone, Copy, Debug, PartialEq, Eq)]
pub struct Back {
    pub to: Option<u16>,
    pub next: u32,
}

// A block by its number from 1.
fn block_at(blocks: &[Block], number: u32) -> Option<&Block>
    ensures { option_copied result ≡ machine_block_at blocks.now number }
{
    if number == 0 {
        return None;
    }
    at(blocks, number as usize - 1)
}

fn last(statements: &[Statement]) -> Option<&Statement>
    ensures { option_copied result ≡ last_or None statements.now }
{
    at(statements, statements.len().saturating_sub(1))
}

fn to_of_statement(statement: Option<&Statement>) -> Option<u16>
    ensures { result ≡ to_of_last (option_copied statement.entry) }
{
    match statement {
        None => None,
        Some(statement) => match &statement.deed {
            Deed::Does(word) => to_of(word),
            _ => None,
        },
    }
}

// The block that ended in the call has both; the entry's frame goes to the reply's slot, and to no block.
fn back_of(block: Option<&Block>) -> Back
    ensures { machine_back result ≡ machine_back_of (option_copied block.entry) }
{
    match block {
        None => Back {
            to: Some(0),
            next: 0,
        },
        Some(block) => Back {
            to: to_of_statement(last(block.statements.as_slice())),
            next: onward(block.exit),
        },
    }
}

/// Where the frame that runs goes back to.
pub fn back_from(blocks: &[Block], frames: &[Frame]) -> Back
    ensures { machine_back result ≡ machine_back_from blocks.now frames.now }
{
    let back = match at(frames, top(frames)) {
        Some(frame) => frame.back(),
        None => 0,
    };
    back_of(block_at(blocks, back))
}
