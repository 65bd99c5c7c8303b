//! What the postfix at the front of a simple statement does with a token, by what it ends in so far.
ghost use Rattle.std.specs.Prelude.{◌≤◌};
ghost use Rattle.px_accept.specs.SimpleMoves.{simple_array, simple_primary, simple_call, simple_element, simple_field, simple_name};
ghost use Rattle.px_accept.specs.Machine.{nesting, Turned};

use crate::role::Role;
use crate::stack::{Stack, Turn};
use crate::symbol::{Position, Seen, Symbol};
use std::alloc::AllocError;

impl Stack {
    pub fn simple_array(
        &mut self,
        position: Position,
        own: u32,
        role: Role,
    ) -> Result<Turn, AllocError>
        requires room { nesting self.old ≤ 1000 }
        requires small { own ≤ 1000 }
        ensures { Turned (simple_array position own role) self.old self.new result }
    {
        match role {
            Role::Dot => self.pushed(&[
                Symbol::Identifier,
                Symbol::Simple(Seen::AField, position, own + 1),
            ]),
            _ => Ok(Turn::Refused),
        }
    }

    pub fn simple_primary(
        &mut self,
        position: Position,
        own: u32,
        role: Role,
    ) -> Result<Turn, AllocError>
        requires room { nesting self.old ≤ 1000 }
        requires small { own ≤ 1000 }
        ensures { Turned (simple_primary position own role) self.old self.new result }
    {
        match role {
            Role::Dot => self.pushed(&[
                Symbol::Identifier,
                Symbol::Simple(Seen::AField, position, own + 1),
            ]),
            Role::OpenBracket => self.pushed(&[
                Symbol::Expression,
                Symbol::Need(Role::CloseBracket),
                Symbol::Simple(Seen::AnElement, position, own + 1),
            ]),
            _ => Ok(Turn::Refused),
        }
    }

    pub fn simple_call(
        &mut self,
        position: Position,
        own: u32,
        role: Role,
    ) -> Result<Turn, AllocError>
        requires room { nesting self.old ≤ 1000 }
        requires small { own ≤ 1000 }
        ensures { Turned (simple_call position own role) self.old self.new result }
    {
        match role {
            Role::Dot => self.pushed(&[
                Symbol::Identifier,
                Symbol::Simple(Seen::AField, position, own + 1),
            ]),
            Role::OpenBracket => self.pushed(&[
                Symbol::Expression,
                Symbol::Need(Role::CloseBracket),
                Symbol::Simple(Seen::AnElement, position, own + 1),
            ]),
            _ => self.simple_end(position, own, role),
        }
    }

    pub fn simple_element(
        &mut self,
        position: Position,
        own: u32,
        role: Role,
    ) -> Result<Turn, AllocError>
        requires room { nesting self.old ≤ 1000 }
        requires small { own ≤ 1000 }
        ensures { Turned (simple_element position own role) self.old self.new result }
    {
        match role {
            Role::Dot => self.pushed(&[
                Symbol::Identifier,
                Symbol::Simple(Seen::AField, position, own + 1),
            ]),
            Role::OpenBracket => self.pushed(&[
                Symbol::Expression,
                Symbol::Need(Role::CloseBracket),
                Symbol::Simple(Seen::AnElement, position, own + 1),
            ]),
            Role::Assign => self.pushed(&[
                Symbol::Expression,
                Symbol::Simple(Seen::AValue, position, own),
            ]),
            _ => Ok(Turn::Refused),
        }
    }

    pub fn simple_field(
        &mut self,
        position: Position,
        own: u32,
        role: Role,
    ) -> Result<Turn, AllocError>
        requires room { nesting self.old ≤ 1000 }
        requires small { own ≤ 1000 }
        ensures { Turned (simple_field position own role) self.old self.new result }
    {
        match role {
            Role::Dot => self.pushed(&[
                Symbol::Identifier,
                Symbol::Simple(Seen::AField, position, own + 1),
            ]),
            Role::OpenBracket => self.pushed(&[
                Symbol::Expression,
                Symbol::Need(Role::CloseBracket),
                Symbol::Simple(Seen::AnElement, position, own + 1),
            ]),
            Role::Assign => self.pushed(&[
                Symbol::Expression,
                Symbol::Simple(Seen::AValue, position, own),
            ]),
            Role::Open => self.pushed(&[
                Symbol::ArgumentList,
                Symbol::Simple(Seen::ACall, position, own),
            ]),
            _ => Ok(Turn::Refused),
        }
    }

    pub fn simple_name(
        &mut self,
        position: Position,
        own: u32,
        role: Role,
    ) -> Result<Turn, AllocError>
        requires room { nesting self.old ≤ 1000 }
        requires small { own ≤ 1000 }
        ensures { Turned (simple_name position own role) self.old self.new result }
    {
        match role {
            Role::Dot => self.pushed(&[
                Symbol::Identifier,
                Symbol::Simple(Seen::AField, position, own + 1),
            ]),
            Role::OpenBracket => self.pushed(&[
                Symbol::Expression,
                Symbol::Need(Role::CloseBracket),
                Symbol::Simple(Seen::AnElement, position, own + 1),
            ]),
            Role::Assign | Role::Compound => self.pushed(&[
                Symbol::Expression,
                Symbol::Simple(Seen::AValue, position, own),
            ]),
            Role::Open => self.pushed(&[
                Symbol::ArgumentList,
                Symbol::Simple(Seen::ACall, position, own),
            ]),
            Role::Step => self.pushed(&[Symbol::Simple(Seen::AValue, position, own)]),
            _ => Ok(Turn::Refused),
        }
    }
}
