//! What is found in a program.
ghost use Rattle.std.specs.Prelude.{◌≡◌, Some, None, [], ◌∷◌};
ghost use Rattle.px_type_rules.specs.Breaches as breaches;
ghost use Rattle.px_type_rules.specs.Breaches.{after, Fault, New, OneMethod};

use crate::breach::Breach;

const MAX_NEWS: u32 = 10000;

const MAX_METHODS: u32 = 2000;

/// The least breach so far, by token and then by code, and what is counted over the whole program.
#[derive(Clone, Copy)]
pub struct Report {
    pub first: Option<Breach>,
    /// The `new` expressions and the calls of `Db`, up to their limit.
    pub news: u32,
    /// The methods, up to their limit.
    pub methods: u32,
}

impl Report {
    pub fn new() -> Report
        ensures { result ≡ record { first = None; news = 0; methods = 0 } }
    {
        Report {
            first: None,
            news: 0,
            methods: 0,
        }
    }

    #[tactic(auto, unfolding(crate::specs::Breaches::noted))]
    pub fn breach(&mut self, token: u32, code: u8)
        ensures { self.new ≡ after self.old (Fault token code ∷ []) }
    {
        self.first = Some(lesser(self.first, Breach { token, code }));
    }

    #[tactic(auto, unfolding(crate::specs::Breaches::noted))]
    pub fn breach_if(&mut self, broken: bool, token: u32, code: u8)
        ensures { self.new ≡ after self.old (breaches.breach_if broken token code) }
    {
        if broken {
            self.breach(token, code);
        }
    }

    /// Counts a `new` expression or a call of `Db`.
    #[tactic(auto, unfolding(crate::specs::Breaches::noted))]
    pub fn created(&mut self, token: u32)
        ensures { self.new ≡ after self.old (New token ∷ []) }
    {
        if self.news < MAX_NEWS {
            self.news += 1;
        } else {
            self.breach(token, 17);
        }
    }

    /// Counts a method.
    #[tactic(auto, unfolding(crate::specs::Breaches::noted))]
    pub fn declared_method(&mut self, token: u32)
        ensures { self.new ≡ after self.old (OneMethod token ∷ []) }
    {
        if self.methods < MAX_METHODS {
            self.methods += 1;
        } else {
            self.breach(token, 17);
        }
    }
}

fn lesser(first: Option<Breach>, next: Breach) -> Breach
    ensures { breaches.lesser first next ≡ Some result }
{
    match first {
        Some(first) if !is_before(next, first) => first,
        _ => next,
    }
}

fn is_before(a: Breach, b: Breach) -> bool
    ensures { result ≡ breaches.is_before a b }
{
    a.token < b.token || a.token == b.token && a.code < b.code
}
