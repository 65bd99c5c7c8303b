//! What the symbols of statements and blocks do with a token.
ghost use Rattle.std.specs.Prelude.{◌≤◌};
ghost use Rattle.px_accept.specs.StatementMoves.{named_statement, statement, returned, otherwise, items, item_dot, item_name, item_bracket, for_init, for_name, for_bracket};
ghost use Rattle.px_accept.specs.Machine.{nesting, Turned};

use crate::role::{Role, Spelling};
use crate::stack::{Stack, Turn};
use crate::symbol::{Position, Seen, Symbol};
use std::alloc::AllocError;

impl Stack {
    pub fn named_statement(&mut self, spelling: Spelling) -> Result<Turn, AllocError>
        requires room { nesting self.old ≤ 2000 }
        ensures { Turned (named_statement spelling) self.old self.new result }
    {
        match spelling {
            Spelling::System => self.pushed(&[Symbol::SystemFirst]),
            _ => self.pushed(&[Symbol::Simple(Seen::AName, Position::Alone, 1)]),
        }
    }

    pub fn statement(&mut self, role: Role) -> Result<Turn, AllocError>
        requires room { nesting self.old ≤ 2000 }
        ensures { Turned (statement role) self.old self.new result }
    {
        match role {
            Role::OpenBrace => self.pushed(&[Symbol::Items, Symbol::Ended(1)]),
            Role::Semicolon => self.pushed(&[Symbol::Ended(1)]),
            Role::If => self.pushed(&[
                Symbol::Need(Role::Open),
                Symbol::Expression,
                Symbol::Need(Role::Close),
                Symbol::Statement,
                Symbol::Otherwise,
                Symbol::Ended(1),
            ]),
            Role::While => self.pushed(&[
                Symbol::Need(Role::Open),
                Symbol::Expression,
                Symbol::Need(Role::Close),
                Symbol::Statement,
                Symbol::Ended(1),
            ]),
            Role::For => self.pushed(&[Symbol::Need(Role::Open), Symbol::ForInit]),
            Role::Return => self.pushed(&[Symbol::Returned, Symbol::Ended(1)]),
            Role::Name(spelling) => self.named_statement(spelling),
            _ => self.simple_first(Position::Alone, 1, role),
        }
    }

    pub fn returned(&mut self, role: Role) -> Result<Turn, AllocError>
        requires room { nesting self.old ≤ 1000 }
        ensures { Turned (returned role) self.old self.new result }
    {
        match role {
            Role::Semicolon => self.pushed(&[]),
            _ => {
                self.put(&[Symbol::Need(Role::Semicolon)])?;
                self.operand(1, 0, role)
            },
        }
    }

    pub fn otherwise(&mut self, role: Role) -> Result<Turn, AllocError>
        requires room { nesting self.old ≤ 1000 }
        ensures { Turned (otherwise role) self.old self.new result }
    {
        match role {
            Role::Else => self.pushed(&[Symbol::Statement]),
            _ => Ok(Turn::Passed),
        }
    }

    pub fn items(&mut self, role: Role) -> Result<Turn, AllocError>
        requires room { nesting self.old ≤ 1000 }
        ensures { Turned (items role) self.old self.new result }
    {
        match role {
            Role::CloseBrace => self.pushed(&[Symbol::Ended(1)]),
            Role::Integral | Role::Boolean => self.pushed(&[
                Symbol::Brackets,
                Symbol::Identifier,
                Symbol::Need(Role::Assign),
                Symbol::Expression,
                Symbol::Need(Role::Semicolon),
                Symbol::Items,
            ]),
            Role::Name(s) => self.pushed(&[Symbol::ItemName(s), Symbol::Items]),
            _ => {
                self.put(&[Symbol::Items])?;
                self.statement(role)
            },
        }
    }

    pub fn item_dot(&mut self, spelling: Spelling) -> Result<Turn, AllocError>
        requires room { nesting self.old ≤ 1000 }
        ensures { Turned (item_dot spelling) self.old self.new result }
    {
        match spelling {
            Spelling::System => self.pushed(&[Symbol::SystemDot]),
            _ => self.pushed(&[
                Symbol::Identifier,
                Symbol::Simple(Seen::AField, Position::Alone, 2),
            ]),
        }
    }

    pub fn item_name(&mut self, spelling: Spelling, role: Role) -> Result<Turn, AllocError>
        requires room { nesting self.old ≤ 1000 }
        ensures { Turned (item_name spelling role) self.old self.new result }
    {
        match role {
            Role::Name(_) => self.pushed(&[
                Symbol::Need(Role::Assign),
                Symbol::Expression,
                Symbol::Need(Role::Semicolon),
            ]),
            Role::OpenBracket => self.pushed(&[Symbol::ItemBracket]),
            Role::Dot => self.item_dot(spelling),
            _ => self.simple_name(Position::Alone, 1, role),
        }
    }

    pub fn item_bracket(&mut self, role: Role) -> Result<Turn, AllocError>
        requires room { nesting self.old ≤ 1000 }
        ensures { Turned (item_bracket role) self.old self.new result }
    {
        match role {
            Role::CloseBracket => self.pushed(&[
                Symbol::Identifier,
                Symbol::Need(Role::Assign),
                Symbol::Expression,
                Symbol::Need(Role::Semicolon),
            ]),
            _ => {
                self.put(&[
                    Symbol::Need(Role::CloseBracket),
                    Symbol::Simple(Seen::AnElement, Position::Alone, 2),
                ])?;
                self.operand(1, 0, role)
            },
        }
    }

    pub fn for_init(&mut self, role: Role) -> Result<Turn, AllocError>
        requires room { nesting self.old ≤ 1000 }
        ensures { Turned (for_init role) self.old self.new result }
    {
        match role {
            Role::Integral | Role::Boolean => self.pushed(&[
                Symbol::Brackets,
                Symbol::Identifier,
                Symbol::Need(Role::Assign),
                Symbol::Expression,
                Symbol::Need(Role::Semicolon),
                Symbol::Expression,
                Symbol::Need(Role::Semicolon),
                Symbol::Simple(Seen::Nothing, Position::Update, 1),
            ]),
            Role::Name(_) => self.pushed(&[Symbol::ForName]),
            _ => self.simple_first(Position::Init, 1, role),
        }
    }

    pub fn for_name(&mut self, role: Role) -> Result<Turn, AllocError>
        requires room { nesting self.old ≤ 1000 }
        ensures { Turned (for_name role) self.old self.new result }
    {
        match role {
            Role::Name(_) => self.pushed(&[
                Symbol::Need(Role::Assign),
                Symbol::Expression,
                Symbol::Need(Role::Semicolon),
                Symbol::Expression,
                Symbol::Need(Role::Semicolon),
                Symbol::Simple(Seen::Nothing, Position::Update, 1),
            ]),
            Role::OpenBracket => self.pushed(&[Symbol::ForBracket]),
            _ => self.simple_name(Position::Init, 1, role),
        }
    }

    pub fn for_bracket(&mut self, role: Role) -> Result<Turn, AllocError>
        requires room { nesting self.old ≤ 1000 }
        ensures { Turned (for_bracket role) self.old self.new result }
    {
        match role {
            Role::CloseBracket => self.pushed(&[
                Symbol::Identifier,
                Symbol::Need(Role::Assign),
                Symbol::Expression,
                Symbol::Need(Role::Semicolon),
                Symbol::Expression,
                Symbol::Need(Role::Semicolon),
                Symbol::Simple(Seen::Nothing, Position::Update, 1),
            ]),
            _ => {
                self.put(&[
                    Symbol::Need(Role::CloseBracket),
                    Symbol::Simple(Seen::AnElement, Position::Init, 2),
                ])?;
                self.operand(1, 0, role)
            },
        }
    }
}
