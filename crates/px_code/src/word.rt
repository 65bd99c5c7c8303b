//! Normal statements.
use px_value::{Op, Value};

/// A slot of the frame, or a value that stands in the code.
#[derive(Drop)]
pub enum Operand {
    Slot(u16),
    Literal(Value),
}

/// What one statement does. `to` is the slot that gets its value.
#[derive(Drop)]
pub enum Word {
    Set {
        to: u16,
        value: Operand,
    },
    /// A unary operator has no right operand.
    Op {
        op: Op,
        to: u16,
        left: Operand,
        right: Option<Operand>,
    },
    /// Reads a field of a class, by its place in the class.
    Get {
        to: u16,
        of: Operand,
        class: u16,
        field: u16,
    },
    Put {
        of: Operand,
        class: u16,
        field: u16,
        value: Operand,
    },
    Return(Option<Operand>),
}
