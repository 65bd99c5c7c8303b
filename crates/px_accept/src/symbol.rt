//! What may still be to come.
use crate::role::{Role, Spelling};

/// Where a simple statement stands.
#[derive(Clone, Copy)]
pub enum Position {
    /// A statement by itself, which ends in `;`.
    Alone,
    /// At the front of a `for`'s head, before the first `;`.
    Init,
    /// At the end of a `for`'s head, before the `)`.
    Update,
}

/// What a simple statement has shown so far: mostly, what its postfix ends in.
#[derive(Clone, Copy)]
pub enum Seen {
    Nothing,
    AfterNew,
    AfterNewName,
    AnArray,
    APrimary,
    AName,
    AField,
    AnElement,
    ACall,
    /// It may end here, and takes nothing more.
    AValue,
}

/// What is still to come, at one place of the stack.
///
/// The first number of a symbol is what the expression or statement that it stands in adds to the nesting by itself: 1, and
/// its operators, dots and indexes so far. The second is the number of prefixes that wait for their operand's end.
#[derive(Clone, Copy)]
pub enum Symbol {
    /// This very token.
    Need(Role),
    Identifier,
    ParameterType,
    /// Tables, or the first class.
    Tables,
    /// Further classes, or the end.
    Classes,
    /// Further columns, or the `)`.
    Columns,
    /// Members, or the class's `}`.
    Members,
    /// A member behind its modifier.
    Member,
    /// `[]`, or nothing.
    Brackets,
    /// What follows a member's name.
    MemberRest,
    Parameters,
    MoreParameters,
    /// What follows a method's `)`.
    Body,
    /// A block.
    Braced,
    /// Items, or the block's `}`.
    Items,
    /// A statement or block that is complete: the next token stands outside it.
    Ended(u32),
    /// An item behind its first name, which may begin a type or a place.
    ItemName(Spelling),
    /// An item behind a name and `[`.
    ItemBracket,
    Statement,
    /// `else`, or nothing.
    Otherwise,
    /// What follows `return`.
    Returned,
    ForInit,
    /// The head of a `for` behind its first name, which may begin a type or a place.
    ForName,
    /// The head of a `for` behind a name and `[`.
    ForBracket,
    /// A statement behind `System`.
    SystemFirst,
    /// A statement behind `System.`.
    SystemDot,
    /// A statement behind `System.out`.
    SystemOut,
    /// A statement behind `System.out.`.
    SystemOutDot,
    /// A statement behind `System.out.println`.
    Printing,
    Simple(Seen, Position, u32),
    Expression,
    /// An operand of an expression that has begun.
    Operand(u32, u32),
    /// What follows a `(` that begins an operand: an expression, or the type of a cast.
    Parenthesis(u32, u32),
    /// What follows a postfix.
    Tail(u32, u32),
    /// What follows a new array, which takes no index.
    ArrayTail(u32, u32),
    /// What follows `new`.
    Making(u32, u32),
    /// What follows `new` and a name.
    MakingName(u32, u32),
    /// Arguments, or nothing.
    Arguments,
    /// What follows the `(` of arguments.
    ArgumentList,
    MoreArguments,
}
