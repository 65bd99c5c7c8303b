//! The stack of what is still to come.
ghost use Rattle.std.specs.Prelude.{◌≡◌, ◌+◌, ◌<◌, ◌^◌, ◌++◌, ◌∷◌, [], IfOk, IsTrue, ◌↔◌, MatchOption};
ghost use Rattle.px_accept.specs.Moves.{Push};
ghost use Rattle.px_accept.specs.Machine.{nesting, weight, Turned};

use crate::symbol::Symbol;
use std::alloc::{AllocError, Global};
use std::marker::Model;

/// What the top symbol did with a token.
#[derive(Clone, Copy)]
pub enum Turn {
    Refused,
    Passed,
    Pushed,
}

/// The symbols, the top last, and the nesting that they stand for.
#[derive(Drop)]
pub struct Stack {
    symbols: Vec<Symbol>,
    deep: u32,
}

impl Model for Stack {
    ghost use Rattle.std.specs.Prelude.{◌≡◌, List, reverse};
    ghost use Rattle.px_accept.specs.declared.symbol.Symbol.{Symbol};
    ghost use Rattle.px_accept.specs.Machine.{nesting};

    ghost Value = { List Symbol };

    ghost view = { λ s. reverse s.symbols.items };

    ghost invariant = { λ s. s.deep ≡ nesting (reverse s.symbols.items) };
}

// What a symbol adds to the nesting.
fn weight_of(symbol: Symbol) -> u32
    requires { weight symbol < 2 ^ 32 }
    ensures { result ≡ weight symbol }
{
    match symbol {
        Symbol::Items
        | Symbol::ForInit
        | Symbol::ForName
        | Symbol::ForBracket
        | Symbol::SystemFirst
        | Symbol::SystemDot
        | Symbol::SystemOut
        | Symbol::SystemOutDot
        | Symbol::Printing => 1,
        Symbol::Ended(own) | Symbol::Simple(_, _, own) => own,
        Symbol::Operand(own, prefixes)
        | Symbol::Parenthesis(own, prefixes)
        | Symbol::Tail(own, prefixes)
        | Symbol::ArrayTail(own, prefixes)
        | Symbol::Making(own, prefixes)
        | Symbol::MakingName(own, prefixes) => own + prefixes,
        _ => 0,
    }
}

impl Stack {
    pub fn new(alloc: Global) -> Stack
        ensures { result ≡ [] }
    {
        Stack {
            symbols: Vec::new(alloc),
            deep: 0,
        }
    }

    pub fn is_empty(&self) -> bool
        ensures { IsTrue result ↔ self.now ≡ [] }
    {
        self.symbols.is_empty()
    }

    pub fn nesting(&self) -> u32
        ensures { result ≡ nesting self.now }
    {
        self.deep
    }

    pub fn push(&mut self, symbol: Symbol) -> Result<(), AllocError>
        requires { weight symbol + nesting self.old < 2 ^ 32 }
        ensures { IfOk result (λ _. self.new ≡ symbol ∷ self.old) }
    {
        let more = weight_of(symbol);
        self.symbols.push(symbol)?;
        self.deep += more;
        Ok(())
    }

    pub fn pop(&mut self) -> Option<Symbol>
        requires { nesting self.old < 2 ^ 32 }
        ensures { MatchOption result (self.old ≡ []) (λ s. self.old ≡ s ∷ self.new) }
    {
        match self.symbols.pop() {
            Some(symbol) => {
                let less = weight_of(symbol);
                self.deep -= less;
                Some(symbol)
            }
            None => None,
        }
    }

    // The symbols in front of the stack, the first on top.
    #[tactic(auto, using(crate::proofs::Nesting::nesting_append))]
    pub fn put(&mut self, symbols: &[Symbol]) -> Result<(), AllocError>
        requires { nesting symbols.now + nesting self.old < 2 ^ 32 }
        ensures { IfOk result (λ _. self.new ≡ symbols.now ++ self.old) }
    {
        match symbols {
            [] => Ok(()),
            [symbol, rest @ ..] => {
                self.put(rest)?;
                self.push(*symbol)
            }
        }
    }

    pub fn pushed(&mut self, symbols: &[Symbol]) -> Result<Turn, AllocError>
        requires { nesting symbols.now + nesting self.old < 2 ^ 32 }
        ensures { Turned (Push symbols.now) self.old self.new result }
    {
        self.put(symbols)?;
        Ok(Turn::Pushed)
    }
}
