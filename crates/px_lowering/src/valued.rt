//! What expressions are lowered to.
ghost use Rattle.std.specs.Prelude.{◌≡◌};
ghost use Rattle.px_lowering.specs.Emit.{writes};

use px_normal::{Counter, Operand, Ty, Word};
use px_value::Op;
use sqlite_items::Items;

/// A statement that gives a value, without the slot that it writes.
#[derive(Drop)]
pub enum Step {
    Op {
        op: Op,
        left: Operand,
        right: Option<Operand>,
    },
    Get {
        of: Operand,
        class: u16,
        field: u16,
    },
    Load {
        of: Operand,
        index: Operand,
    },
    Len {
        of: Operand,
    },
    New {
        class: u16,
        site: u16,
    },
    Array {
        element: u16,
        length: Operand,
        site: u16,
    },
    Call {
        of: Operand,
        method: u16,
        args: Items<Operand>,
    },
    Query {
        statement: u16,
        site: u16,
        params: Items<Operand>,
    },
    Update {
        statement: u16,
        params: Items<Operand>,
    },
    Next {
        of: Operand,
    },
    Long {
        of: Operand,
        column: Operand,
    },
    Text {
        of: Operand,
        column: Operand,
    },
}

impl Step {
    /// The statement that writes this slot.
    pub fn writes(self, to: u16) -> Word
        ensures { result ≡ writes self to }
    {
        match self {
            Step::Op { op, left, right } => Word::Op {
                op,
                to,
                left,
                right,
            },
            Step::Get { of, class, field } => Word::Get {
                to,
                of,
                class,
                field,
            },
            Step::Load { of, index } => Word::Load { to, of, index },
            Step::Len { of } => Word::Len { to, of },
            Step::New { class, site } => Word::New { to, class, site },
            Step::Array {
                element,
                length,
                site,
            } => Word::Array {
                to,
                element,
                length,
                site,
            },
            Step::Call { of, method, args } => {
                let to = Some(to);
                Word::Call {
                    to,
                    of,
                    method,
                    args,
                }
            }
            Step::Query {
                statement,
                site,
                params,
            } => Word::Query {
                to,
                statement,
                site,
                params,
            },
            Step::Update { statement, params } => Word::Update {
                to,
                statement,
                params,
            },
            Step::Next { of } => Word::Next { to, of },
            Step::Long { of, column } => Word::Long { to, of, column },
            Step::Text { of, column } => Word::Text { to, of, column },
        }
    }
}

/// How a value is had.
#[derive(Drop)]
pub enum Had {
    /// It is there.
    Held(Operand),
    /// In a temporary that a choice has made, and that another choice may write again.
    Chosen(u16),
    /// By one more statement: the type of its value, and how often it runs.
    Made {
        step: Step,
        ty: Ty,
        counter: Counter,
    },
}

/// The value of an expression: its number and its first token, both without parentheses round it
/// and casts that do nothing.
#[derive(Drop)]
pub struct Valued {
    pub id: u32,
    pub token: u32,
    pub had: Had,
}
