//! How a simple statement begins and ends: an assignment, a step or a call.
ghost use Rattle.std.specs.Prelude.{◌≤◌};
ghost use Rattle.px_accept.specs.SimpleMoves.{simple_first, simple_new, simple_new_name, end_alone, end_init, end_update, simple_end, simple};
ghost use Rattle.px_accept.specs.Machine.{nesting, Turned};

use crate::role::Role;
use crate::stack::{Stack, Turn};
use crate::symbol::{Position, Seen, Symbol};
use std::alloc::AllocError;

impl Stack {
    pub fn simple_first(
        &mut self,
        position: Position,
        own: u32,
        role: Role,
    ) -> Result<Turn, AllocError>
        requires room { nesting self.old ≤ 2000 }
        requires small { own ≤ 1000 }
        ensures { Turned (simple_first position own role) self.old self.new result }
    {
        match role {
            Role::Name(_) => self.pushed(&[Symbol::Simple(Seen::AName, position, own)]),
            Role::Value => self.pushed(&[Symbol::Simple(Seen::APrimary, position, own)]),
            Role::Open => self.pushed(&[
                Symbol::Expression,
                Symbol::Need(Role::Close),
                Symbol::Simple(Seen::APrimary, position, own),
            ]),
            Role::New => self.pushed(&[Symbol::Simple(Seen::AfterNew, position, own)]),
            _ => Ok(Turn::Refused),
        }
    }

    pub fn simple_new(
        &mut self,
        position: Position,
        own: u32,
        role: Role,
    ) -> Result<Turn, AllocError>
        requires room { nesting self.old ≤ 1000 }
        requires small { own ≤ 1000 }
        ensures { Turned (simple_new position own role) self.old self.new result }
    {
        match role {
            Role::Integral | Role::Boolean => self.pushed(&[
                Symbol::Need(Role::OpenBracket),
                Symbol::Expression,
                Symbol::Need(Role::CloseBracket),
                Symbol::Simple(Seen::AnArray, position, own),
            ]),
            Role::Name(_) => self.pushed(&[Symbol::Simple(Seen::AfterNewName, position, own)]),
            _ => Ok(Turn::Refused),
        }
    }

    pub fn simple_new_name(
        &mut self,
        position: Position,
        own: u32,
        role: Role,
    ) -> Result<Turn, AllocError>
        requires room { nesting self.old ≤ 1000 }
        requires small { own ≤ 1000 }
        ensures { Turned (simple_new_name position own role) self.old self.new result }
    {
        match role {
            Role::Open => self.pushed(&[
                Symbol::Need(Role::Close),
                Symbol::Simple(Seen::APrimary, position, own),
            ]),
            Role::OpenBracket => self.pushed(&[
                Symbol::Expression,
                Symbol::Need(Role::CloseBracket),
                Symbol::Simple(Seen::AnArray, position, own),
            ]),
            _ => Ok(Turn::Refused),
        }
    }

    pub fn end_alone(&mut self, own: u32, role: Role) -> Result<Turn, AllocError>
        requires room { nesting self.old ≤ 1000 }
        requires small { own ≤ 1000 }
        ensures { Turned (end_alone own role) self.old self.new result }
    {
        match role {
            Role::Semicolon => self.pushed(&[Symbol::Ended(own)]),
            _ => Ok(Turn::Refused),
        }
    }

    pub fn end_init(&mut self, own: u32, role: Role) -> Result<Turn, AllocError>
        requires room { nesting self.old ≤ 1000 }
        requires small { own ≤ 1000 }
        ensures { Turned (end_init own role) self.old self.new result }
    {
        match role {
            Role::Semicolon => self.pushed(&[
                Symbol::Expression,
                Symbol::Need(Role::Semicolon),
                Symbol::Simple(Seen::Nothing, Position::Update, own),
            ]),
            _ => Ok(Turn::Refused),
        }
    }

    pub fn end_update(&mut self, own: u32, role: Role) -> Result<Turn, AllocError>
        requires room { nesting self.old ≤ 1000 }
        requires small { own ≤ 1000 }
        ensures { Turned (end_update own role) self.old self.new result }
    {
        match role {
            Role::Close => self.pushed(&[Symbol::Statement, Symbol::Ended(own)]),
            _ => Ok(Turn::Refused),
        }
    }

    pub fn simple_end(
        &mut self,
        position: Position,
        own: u32,
        role: Role,
    ) -> Result<Turn, AllocError>
        requires room { nesting self.old ≤ 1000 }
        requires small { own ≤ 1000 }
        ensures { Turned (simple_end position own role) self.old self.new result }
    {
        match position {
            Position::Alone => self.end_alone(own, role),
            Position::Init => self.end_init(own, role),
            Position::Update => self.end_update(own, role),
        }
    }

    pub fn simple(
        &mut self,
        seen: Seen,
        position: Position,
        own: u32,
        role: Role,
    ) -> Result<Turn, AllocError>
        requires room { nesting self.old ≤ 1000 }
        requires small { own ≤ 1000 }
        ensures { Turned (simple seen position own role) self.old self.new result }
    {
        match seen {
            Seen::Nothing => self.simple_first(position, own, role),
            Seen::AfterNew => self.simple_new(position, own, role),
            Seen::AfterNewName => self.simple_new_name(position, own, role),
            Seen::AnArray => self.simple_array(position, own, role),
            Seen::APrimary => self.simple_primary(position, own, role),
            Seen::AName => self.simple_name(position, own, role),
            Seen::AField => self.simple_field(position, own, role),
            Seen::AnElement => self.simple_element(position, own, role),
            Seen::ACall => self.simple_call(position, own, role),
            Seen::AValue => self.simple_end(position, own, role),
        }
    }
}
