//! The acceptor: it shows each token to the stack until one is refused or stands too deep.
ghost use Rattle.std.specs.Prelude.{◌≡◌, ◌≤◌, ◌==◌, IfOk, IsTrue};
ghost use Rattle.px_accept.specs.Place.{IsPlace};
ghost use Rattle.px_accept.specs.Codes.{role_code};
ghost use Rattle.px_accept.specs.Machine.{nesting, weight, Turned, Advanced, needed, move_of, step, start, taken, refused_from};

use crate::role::{Role, role_code};
use crate::stack::{Stack, Turn};
use crate::symbol::Symbol;
use std::alloc::{AllocError, Global};

const MAX_NESTING: u32 = 100;

impl Stack {
    fn need(&mut self, wanted: Role, role: Role) -> Result<Turn, AllocError>
        requires room { nesting self.old ≤ 1000 }
        ensures { Turned (needed (role_code wanted == role_code role)) self.old self.new result }
    {
        if role_code(wanted) == role_code(role) {
            Ok(Turn::Pushed)
        } else {
            Ok(Turn::Refused)
        }
    }

    #[tactic(auto, unfolding(crate::specs::Machine::move_of))]
    fn turn(&mut self, symbol: Symbol, role: Role) -> Result<Turn, AllocError>
        requires room { nesting self.old ≤ 1000 }
        requires small { weight symbol ≤ 1000 }
        ensures { Turned (move_of symbol role) self.old self.new result }
    {
        match symbol {
            Symbol::Need(wanted) => self.need(wanted, role),
            Symbol::Identifier => self.identifier(role),
            Symbol::ParameterType => self.parameter_type(role),
            Symbol::Tables => self.tables(role),
            Symbol::Classes => self.classes(role),
            Symbol::Columns => self.columns(role),
            Symbol::Members => self.members(role),
            Symbol::Member => self.member(role),
            Symbol::Brackets => self.brackets(role),
            Symbol::MemberRest => self.member_rest(role),
            Symbol::Parameters => self.parameters(role),
            Symbol::MoreParameters => self.more_parameters(role),
            Symbol::Body => self.body(role),
            Symbol::Braced => self.braced(role),
            Symbol::Items => self.items(role),
            Symbol::Ended(_) => Ok(Turn::Passed),
            Symbol::ItemName(spelling) => self.item_name(spelling, role),
            Symbol::ItemBracket => self.item_bracket(role),
            Symbol::Statement => self.statement(role),
            Symbol::Otherwise => self.otherwise(role),
            Symbol::Returned => self.returned(role),
            Symbol::ForInit => self.for_init(role),
            Symbol::ForName => self.for_name(role),
            Symbol::ForBracket => self.for_bracket(role),
            Symbol::SystemFirst => self.system_first(role),
            Symbol::SystemDot => self.system_dot(role),
            Symbol::SystemOut => self.system_out(role),
            Symbol::SystemOutDot => self.system_out_dot(role),
            Symbol::Printing => self.printing(role),
            Symbol::Simple(seen, position, own) => self.simple(seen, position, own, role),
            Symbol::Expression => self.operand(1, 0, role),
            Symbol::Operand(own, prefixes) => self.operand(own, prefixes, role),
            Symbol::Parenthesis(own, prefixes) => self.parenthesis(own, prefixes, role),
            Symbol::Tail(own, prefixes) => self.tail(own, prefixes, role),
            Symbol::ArrayTail(own, prefixes) => self.array_tail(own, prefixes, role),
            Symbol::Making(own, prefixes) => self.making(own, prefixes, role),
            Symbol::MakingName(own, prefixes) => self.making_name(own, prefixes, role),
            Symbol::Arguments => self.arguments(role),
            Symbol::ArgumentList => self.argument_list(role),
            Symbol::MoreArguments => self.more_arguments(role),
        }
    }

    // Whether the token is taken, and stands no deeper than the limit.
    #[tactic(auto, unfolding(crate::specs::Machine::taken))]
    fn take(&mut self, role: Role) -> Result<bool, AllocError>
        requires { nesting self.old ≤ 100 }
        ensures taken { Advanced (taken self.old role) self.new result }
        ensures low { IfOk result (λ b. IsTrue b → nesting self.new ≤ 100) }
    {
        let taken = self.advance(role)?;
        Ok(taken && self.nesting() <= MAX_NESTING)
    }

    // Symbols that may be left out are passed, until one takes or refuses the token.
    #[tactic(auto, unfolding(crate::specs::Machine::step))]
    fn advance(&mut self, role: Role) -> Result<bool, AllocError>
        requires { nesting self.old ≤ 1000 }
        ensures { Advanced (step self.old role) self.new result }
    {
        match self.pop() {
            Some(symbol) => match self.turn(symbol, role)? {
                Turn::Refused => Ok(false),
                Turn::Passed => self.advance(role),
                Turn::Pushed => Ok(true),
            },
            None => Ok(false),
        }
    }
}

/// The place of the first syntax error, in tokens from 0, or None where there is none.
///
/// A whole text ends in `End`. The front of a program without it is refused at its length. An error only where memory runs
/// out.
pub fn first_refused(alloc: Global, roles: &[Role]) -> Result<Option<usize>, AllocError>
    ensures place { IfOk result (λ place. IsPlace roles.now place) }
    ensures exact { IfOk result (λ place. place ≡ refused_from 0 start roles.now) }
{
    read(alloc, roles)
}

fn read(alloc: Global, roles: &[Role]) -> Result<Option<usize>, AllocError>
    ensures { IfOk result (λ place. place ≡ refused_from 0 start roles.now) }
{
    let mut stack = Stack::new(alloc);
    stack.push(Symbol::Tables)?;
    for (place, role) in roles.iter().enumerate() {
        if !stack.take(*role)? {
            return Ok(Some(place));
        }
    }
    if stack.is_empty() {
        Ok(None)
    } else {
        Ok(Some(roles.len()))
    }
}
