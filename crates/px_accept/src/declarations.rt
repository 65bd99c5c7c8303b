//! What the symbols of tables, classes, members and types do with a token.
ghost use Rattle.std.specs.Prelude.{◌≤◌};
ghost use Rattle.px_accept.specs.DeclarationMoves.{identifier, parameter_type, brackets, classes, created, tables, columns, member, members, member_rest, parameters, more_parameters, braced, body};
ghost use Rattle.px_accept.specs.Machine.{nesting, Turned};

use crate::role::{Role, Spelling};
use crate::stack::{Stack, Turn};
use crate::symbol::Symbol;
use std::alloc::AllocError;

impl Stack {
    pub fn identifier(&mut self, role: Role) -> Result<Turn, AllocError>
        requires room { nesting self.old ≤ 1000 }
        ensures { Turned (identifier role) self.old self.new result }
    {
        match role {
            Role::Name(_) => self.pushed(&[]),
            _ => Ok(Turn::Refused),
        }
    }

    pub fn parameter_type(&mut self, role: Role) -> Result<Turn, AllocError>
        requires room { nesting self.old ≤ 1000 }
        ensures { Turned (parameter_type role) self.old self.new result }
    {
        match role {
            Role::Integral | Role::Boolean | Role::Name(_) => self.pushed(&[Symbol::Brackets]),
            _ => Ok(Turn::Refused),
        }
    }

    pub fn brackets(&mut self, role: Role) -> Result<Turn, AllocError>
        requires room { nesting self.old ≤ 1000 }
        ensures { Turned (brackets role) self.old self.new result }
    {
        match role {
            Role::OpenBracket => self.pushed(&[Symbol::Need(Role::CloseBracket)]),
            _ => Ok(Turn::Passed),
        }
    }

    pub fn classes(&mut self, role: Role) -> Result<Turn, AllocError>
        requires room { nesting self.old ≤ 1000 }
        ensures { Turned (classes role) self.old self.new result }
    {
        match role {
            Role::Public => self.pushed(&[
                Symbol::Need(Role::Class),
                Symbol::Identifier,
                Symbol::Need(Role::OpenBrace),
                Symbol::Members,
                Symbol::Classes,
            ]),
            Role::Class => self.pushed(&[
                Symbol::Identifier,
                Symbol::Need(Role::OpenBrace),
                Symbol::Members,
                Symbol::Classes,
            ]),
            Role::End => self.pushed(&[]),
            _ => Ok(Turn::Refused),
        }
    }

    pub fn created(&mut self, spelling: Spelling) -> Result<Turn, AllocError>
        requires room { nesting self.old ≤ 1000 }
        ensures { Turned (created spelling) self.old self.new result }
    {
        match spelling {
            Spelling::Create => self.pushed(&[
                Symbol::Need(Role::Name(Spelling::Table)),
                Symbol::Identifier,
                Symbol::Need(Role::Open),
                Symbol::Identifier,
                Symbol::Need(Role::Name(Spelling::Column)),
                Symbol::Columns,
                Symbol::Tables,
            ]),
            _ => Ok(Turn::Refused),
        }
    }

    pub fn tables(&mut self, role: Role) -> Result<Turn, AllocError>
        requires room { nesting self.old ≤ 1000 }
        ensures { Turned (tables role) self.old self.new result }
    {
        match role {
            Role::Name(spelling) => self.created(spelling),
            Role::Public => self.pushed(&[
                Symbol::Need(Role::Class),
                Symbol::Identifier,
                Symbol::Need(Role::OpenBrace),
                Symbol::Members,
                Symbol::Classes,
            ]),
            Role::Class => self.pushed(&[
                Symbol::Identifier,
                Symbol::Need(Role::OpenBrace),
                Symbol::Members,
                Symbol::Classes,
            ]),
            _ => Ok(Turn::Refused),
        }
    }

    pub fn columns(&mut self, role: Role) -> Result<Turn, AllocError>
        requires room { nesting self.old ≤ 1000 }
        ensures { Turned (columns role) self.old self.new result }
    {
        match role {
            Role::Comma => self.pushed(&[
                Symbol::Identifier,
                Symbol::Need(Role::Name(Spelling::Column)),
                Symbol::Columns,
            ]),
            Role::Close => self.pushed(&[Symbol::Need(Role::Semicolon)]),
            _ => Ok(Turn::Refused),
        }
    }

    pub fn member(&mut self, role: Role) -> Result<Turn, AllocError>
        requires room { nesting self.old ≤ 2000 }
        ensures { Turned (member role) self.old self.new result }
    {
        match role {
            Role::Void => self.pushed(&[
                Symbol::Identifier,
                Symbol::Need(Role::Open),
                Symbol::Parameters,
            ]),
            Role::Integral | Role::Boolean | Role::Name(_) => self.pushed(&[
                Symbol::Brackets,
                Symbol::Identifier,
                Symbol::MemberRest,
            ]),
            _ => Ok(Turn::Refused),
        }
    }

    pub fn members(&mut self, role: Role) -> Result<Turn, AllocError>
        requires room { nesting self.old ≤ 1000 }
        ensures { Turned (members role) self.old self.new result }
    {
        match role {
            Role::CloseBrace => self.pushed(&[]),
            Role::Public | Role::Private => self.pushed(&[Symbol::Member, Symbol::Members]),
            _ => {
                self.put(&[Symbol::Members])?;
                self.member(role)
            },
        }
    }

    pub fn member_rest(&mut self, role: Role) -> Result<Turn, AllocError>
        requires room { nesting self.old ≤ 1000 }
        ensures { Turned (member_rest role) self.old self.new result }
    {
        match role {
            Role::Semicolon => self.pushed(&[]),
            Role::Open => self.pushed(&[Symbol::Parameters]),
            _ => Ok(Turn::Refused),
        }
    }

    pub fn parameters(&mut self, role: Role) -> Result<Turn, AllocError>
        requires room { nesting self.old ≤ 1000 }
        ensures { Turned (parameters role) self.old self.new result }
    {
        match role {
            Role::Close => self.pushed(&[Symbol::Body]),
            Role::Integral | Role::Boolean | Role::Name(_) => self.pushed(&[
                Symbol::Brackets,
                Symbol::Identifier,
                Symbol::MoreParameters,
            ]),
            _ => Ok(Turn::Refused),
        }
    }

    pub fn more_parameters(&mut self, role: Role) -> Result<Turn, AllocError>
        requires room { nesting self.old ≤ 1000 }
        ensures { Turned (more_parameters role) self.old self.new result }
    {
        match role {
            Role::Close => self.pushed(&[Symbol::Body]),
            Role::Comma => self.pushed(&[
                Symbol::ParameterType,
                Symbol::Identifier,
                Symbol::MoreParameters,
            ]),
            _ => Ok(Turn::Refused),
        }
    }

    pub fn braced(&mut self, role: Role) -> Result<Turn, AllocError>
        requires room { nesting self.old ≤ 1000 }
        ensures { Turned (braced role) self.old self.new result }
    {
        match role {
            Role::OpenBrace => self.pushed(&[Symbol::Items]),
            _ => Ok(Turn::Refused),
        }
    }

    pub fn body(&mut self, role: Role) -> Result<Turn, AllocError>
        requires room { nesting self.old ≤ 1000 }
        ensures { Turned (body role) self.old self.new result }
    {
        match role {
            Role::OpenBrace => self.pushed(&[Symbol::Items]),
            Role::Throws => self.pushed(&[
                Symbol::Need(Role::Name(Spelling::SqlException)),
                Symbol::Braced,
            ]),
            _ => Ok(Turn::Refused),
        }
    }
}
