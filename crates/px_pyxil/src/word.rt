//! Normal statements, with names.
use crate::names::{Element, Member};
use px_normal::Operand;
use px_value::{Op, Text};
use sqlite_items::Items;

/// What one statement does. `to` is the slot that gets its value; a call's is absent for a void method.
#[derive(Drop)]
pub enum Word {
    Set {
        to: u16,
        value: Operand,
    },
    Op {
        op: Op,
        to: u16,
        left: Operand,
        right: Option<Operand>,
    },
    Get {
        to: u16,
        of: Operand,
        field: Member,
    },
    Put {
        of: Operand,
        field: Member,
        value: Operand,
    },
    Load {
        to: u16,
        of: Operand,
        index: Operand,
    },
    Store {
        of: Operand,
        index: Operand,
        value: Operand,
    },
    Len {
        to: u16,
        of: Operand,
    },
    New {
        to: u16,
        class: Text,
        site: u16,
    },
    Array {
        to: u16,
        element: Element,
        length: Operand,
        site: u16,
    },
    Call {
        to: Option<u16>,
        of: Operand,
        method: Member,
        args: Items<Operand>,
    },
    Query {
        to: u16,
        statement: u16,
        site: u16,
        params: Items<Operand>,
    },
    Update {
        to: u16,
        statement: u16,
        params: Items<Operand>,
    },
    Next {
        to: u16,
        of: Operand,
    },
    Long {
        to: u16,
        of: Operand,
        column: Operand,
    },
    Text {
        to: u16,
        of: Operand,
        column: Operand,
    },
    Print(Operand),
    Return(Option<Operand>),
}
