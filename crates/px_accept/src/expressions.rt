//! What the symbols of an expression do with a token.
ghost use Rattle.std.specs.Prelude.{◌+◌, ◌≤◌};
ghost use Rattle.px_accept.specs.ExpressionMoves.{operand, parenthesis, tail, array_tail, making, making_name, argument_list, more_arguments, arguments};
ghost use Rattle.px_accept.specs.Machine.{nesting, Turned};

use crate::role::Role;
use crate::stack::{Stack, Turn};
use crate::symbol::Symbol;
use std::alloc::AllocError;

impl Stack {
    pub fn operand(&mut self, own: u32, prefixes: u32, role: Role) -> Result<Turn, AllocError>
        requires room { nesting self.old ≤ 2000 }
        requires small { own + prefixes ≤ 1000 }
        ensures { Turned (operand own prefixes role) self.old self.new result }
    {
        match role {
            Role::Minus | Role::Not => self.pushed(&[Symbol::Operand(own, prefixes + 1)]),
            Role::Open => self.pushed(&[Symbol::Parenthesis(own, prefixes)]),
            Role::Value => self.pushed(&[Symbol::Tail(own, prefixes)]),
            Role::Name(_) => self.pushed(&[Symbol::Arguments, Symbol::Tail(own, prefixes)]),
            Role::New => self.pushed(&[Symbol::Making(own, prefixes)]),
            _ => Ok(Turn::Refused),
        }
    }

    pub fn parenthesis(&mut self, own: u32, prefixes: u32, role: Role) -> Result<Turn, AllocError>
        requires room { nesting self.old ≤ 1000 }
        requires small { own + prefixes ≤ 1000 }
        ensures { Turned (parenthesis own prefixes role) self.old self.new result }
    {
        match role {
            Role::Integral => self.pushed(&[
                Symbol::Need(Role::Close),
                Symbol::Operand(own, prefixes + 1),
            ]),
            _ => {
                self.put(&[Symbol::Need(Role::Close), Symbol::Tail(own, prefixes)])?;
                self.operand(1, 0, role)
            },
        }
    }

    pub fn tail(&mut self, own: u32, prefixes: u32, role: Role) -> Result<Turn, AllocError>
        requires room { nesting self.old ≤ 1000 }
        requires small { own + prefixes ≤ 1000 }
        ensures { Turned (tail own prefixes role) self.old self.new result }
    {
        match role {
            Role::Dot => self.pushed(&[
                Symbol::Identifier,
                Symbol::Arguments,
                Symbol::Tail(own + 1, prefixes),
            ]),
            Role::OpenBracket => self.pushed(&[
                Symbol::Expression,
                Symbol::Need(Role::CloseBracket),
                Symbol::Tail(own + 1, prefixes),
            ]),
            Role::Infix | Role::Minus => self.pushed(&[Symbol::Operand(own + 1, 0)]),
            _ => Ok(Turn::Passed),
        }
    }

    pub fn array_tail(&mut self, own: u32, prefixes: u32, role: Role) -> Result<Turn, AllocError>
        requires room { nesting self.old ≤ 1000 }
        requires small { own + prefixes ≤ 1000 }
        ensures { Turned (array_tail own prefixes role) self.old self.new result }
    {
        match role {
            Role::Dot => self.pushed(&[
                Symbol::Identifier,
                Symbol::Arguments,
                Symbol::Tail(own + 1, prefixes),
            ]),
            Role::Infix | Role::Minus => self.pushed(&[Symbol::Operand(own + 1, 0)]),
            _ => Ok(Turn::Passed),
        }
    }

    pub fn making(&mut self, own: u32, prefixes: u32, role: Role) -> Result<Turn, AllocError>
        requires room { nesting self.old ≤ 1000 }
        requires small { own + prefixes ≤ 1000 }
        ensures { Turned (making own prefixes role) self.old self.new result }
    {
        match role {
            Role::Integral | Role::Boolean => self.pushed(&[
                Symbol::Need(Role::OpenBracket),
                Symbol::Expression,
                Symbol::Need(Role::CloseBracket),
                Symbol::ArrayTail(own, prefixes),
            ]),
            Role::Name(_) => self.pushed(&[Symbol::MakingName(own, prefixes)]),
            _ => Ok(Turn::Refused),
        }
    }

    pub fn making_name(&mut self, own: u32, prefixes: u32, role: Role) -> Result<Turn, AllocError>
        requires room { nesting self.old ≤ 1000 }
        requires small { own + prefixes ≤ 1000 }
        ensures { Turned (making_name own prefixes role) self.old self.new result }
    {
        match role {
            Role::Open => self.pushed(&[Symbol::Need(Role::Close), Symbol::Tail(own, prefixes)]),
            Role::OpenBracket => self.pushed(&[
                Symbol::Expression,
                Symbol::Need(Role::CloseBracket),
                Symbol::ArrayTail(own, prefixes),
            ]),
            _ => Ok(Turn::Refused),
        }
    }

    pub fn arguments(&mut self, role: Role) -> Result<Turn, AllocError>
        requires room { nesting self.old ≤ 1000 }
        ensures { Turned (arguments role) self.old self.new result }
    {
        match role {
            Role::Open => self.pushed(&[Symbol::ArgumentList]),
            _ => Ok(Turn::Passed),
        }
    }

    pub fn argument_list(&mut self, role: Role) -> Result<Turn, AllocError>
        requires room { nesting self.old ≤ 1000 }
        ensures { Turned (argument_list role) self.old self.new result }
    {
        match role {
            Role::Close => self.pushed(&[]),
            _ => {
                self.put(&[Symbol::MoreArguments])?;
                self.operand(1, 0, role)
            },
        }
    }

    pub fn more_arguments(&mut self, role: Role) -> Result<Turn, AllocError>
        requires room { nesting self.old ≤ 1000 }
        ensures { Turned (more_arguments role) self.old self.new result }
    {
        match role {
            Role::Comma => self.pushed(&[Symbol::Expression, Symbol::MoreArguments]),
            Role::Close => self.pushed(&[]),
            _ => Ok(Turn::Refused),
        }
    }
}
