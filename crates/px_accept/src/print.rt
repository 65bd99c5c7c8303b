//! What a statement that begins with `System` does with a token, until it is a print or none.
ghost use Rattle.std.specs.Prelude.{◌≤◌};
ghost use Rattle.px_accept.specs.StatementMoves.{system_first, system_named, system_dot, system_out, out_named, system_out_dot, printing};
ghost use Rattle.px_accept.specs.Machine.{nesting, Turned};

use crate::role::{Role, Spelling};
use crate::stack::{Stack, Turn};
use crate::symbol::{Position, Seen, Symbol};
use std::alloc::AllocError;

impl Stack {
    pub fn system_first(&mut self, role: Role) -> Result<Turn, AllocError>
        requires room { nesting self.old ≤ 1000 }
        ensures { Turned (system_first role) self.old self.new result }
    {
        match role {
            Role::Dot => self.pushed(&[Symbol::SystemDot]),
            _ => self.simple_name(Position::Alone, 1, role),
        }
    }

    pub fn system_named(&mut self, spelling: Spelling) -> Result<Turn, AllocError>
        requires room { nesting self.old ≤ 1000 }
        ensures { Turned (system_named spelling) self.old self.new result }
    {
        match spelling {
            Spelling::Out => self.pushed(&[Symbol::SystemOut]),
            _ => self.pushed(&[Symbol::Simple(Seen::AField, Position::Alone, 2)]),
        }
    }

    pub fn system_dot(&mut self, role: Role) -> Result<Turn, AllocError>
        requires room { nesting self.old ≤ 1000 }
        ensures { Turned (system_dot role) self.old self.new result }
    {
        match role {
            Role::Name(spelling) => self.system_named(spelling),
            _ => Ok(Turn::Refused),
        }
    }

    pub fn system_out(&mut self, role: Role) -> Result<Turn, AllocError>
        requires room { nesting self.old ≤ 1000 }
        ensures { Turned (system_out role) self.old self.new result }
    {
        match role {
            Role::Dot => self.pushed(&[Symbol::SystemOutDot]),
            _ => self.simple_field(Position::Alone, 2, role),
        }
    }

    pub fn out_named(&mut self, spelling: Spelling) -> Result<Turn, AllocError>
        requires room { nesting self.old ≤ 1000 }
        ensures { Turned (out_named spelling) self.old self.new result }
    {
        match spelling {
            Spelling::Println => self.pushed(&[Symbol::Printing]),
            _ => self.pushed(&[Symbol::Simple(Seen::AField, Position::Alone, 3)]),
        }
    }

    pub fn system_out_dot(&mut self, role: Role) -> Result<Turn, AllocError>
        requires room { nesting self.old ≤ 1000 }
        ensures { Turned (system_out_dot role) self.old self.new result }
    {
        match role {
            Role::Name(spelling) => self.out_named(spelling),
            _ => Ok(Turn::Refused),
        }
    }

    pub fn printing(&mut self, role: Role) -> Result<Turn, AllocError>
        requires room { nesting self.old ≤ 1000 }
        ensures { Turned (printing role) self.old self.new result }
    {
        match role {
            Role::Open => self.pushed(&[
                Symbol::Expression,
                Symbol::Need(Role::Close),
                Symbol::Need(Role::Semicolon),
                Symbol::Ended(1),
            ]),
            _ => self.simple_field(Position::Alone, 3, role),
        }
    }
}
