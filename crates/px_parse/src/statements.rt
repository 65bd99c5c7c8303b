//! Statements and blocks.
ghost use Rattle.std.specs.Prelude.{◌≡◌, ◌<◌, length, OnOk};
ghost use Rattle.px_parse.specs.Reading as spec;
ghost use Rattle.px_parse.specs.Reading.{Gives};

use crate::error::ReadError;
use crate::nodes::{empty_of, print_of, return_of};
use crate::parts::Turns;
use crate::source::Source;
use crate::tokens::Tokens;
use px_tree::{Expr, Stmt};
use px_words::Word;
use sqlite_items::Boxed;

impl Tokens<'_> {
    // Whether `System.out.println(` stands next.
    fn see_print(&self) -> bool
        ensures { result ≡ spec.is_print self.now.left.now }
    {
        self.sees(Word::System)
            && self.sees_ahead(1, Word::Dot)
            && self.sees_ahead(2, Word::Out)
            && self.sees_ahead(3, Word::Dot)
            && self.sees_ahead(4, Word::Println)
            && self.sees_ahead(5, Word::Open)
    }
}

impl Source<'_> {
    // An expression in parentheses, behind a keyword.
    #[tactic(auto, unfolding(crate::specs::Reading::condition))]
    pub fn condition(&self, tokens: &mut Tokens<'_>) -> Result<Expr, ReadError>
        ensures gives { Gives (spec.condition self.now.bytes.now tokens.old.left.now) result tokens.new.left.now }
        ensures fewer { OnOk result (length tokens.new.left.now < length tokens.old.left.now) }
    {
        tokens.expect(Word::Open)?;
        let test = self.expression(tokens)?;
        tokens.ended(Word::Close, test)
    }

    #[tactic(auto, unfolding(crate::specs::Reading::empty))]
    pub fn empty(&self, tokens: &mut Tokens<'_>) -> Result<Stmt, ReadError>
        ensures gives { Gives (spec.empty tokens.old.left.now) result tokens.new.left.now }
        ensures fewer { OnOk result (length tokens.new.left.now < length tokens.old.left.now) }
    {
        let semicolon = tokens.take()?;
        Ok(empty_of(semicolon))
    }

    #[tactic(auto, unfolding(crate::specs::Reading::returned, crate::specs::Reading::return_nothing, crate::specs::Reading::return_value))]
    pub fn returned(&self, tokens: &mut Tokens<'_>) -> Result<Stmt, ReadError>
        ensures gives { Gives (spec.returned self.now.bytes.now tokens.old.left.now) result tokens.new.left.now }
        ensures fewer { OnOk result (length tokens.new.left.now < length tokens.old.left.now) }
    {
        let x = tokens.take()?;
        if tokens.sees(Word::Semicolon) {
            tokens.take()?;
            Ok(return_of(x, None))
        } else {
            let value = self.expression(tokens)?;
            tokens.ended(Word::Semicolon, return_of(x, Some(value)))
        }
    }

    #[tactic(auto, unfolding(crate::specs::Reading::print))]
    fn print(&self, tokens: &mut Tokens<'_>) -> Result<Stmt, ReadError>
        ensures gives { Gives (spec.print self.now.bytes.now tokens.old.left.now) result tokens.new.left.now }
        ensures fewer { OnOk result (length tokens.new.left.now < length tokens.old.left.now) }
    {
        let system = tokens.take()?;
        tokens.take()?;
        tokens.take()?;
        tokens.take()?;
        tokens.take()?;
        tokens.take()?;
        let value = self.expression(tokens)?;
        let value = tokens.ended(Word::Close, value)?;
        tokens.ended(Word::Semicolon, print_of(system, value))
    }

    #[tactic(auto, unfolding(crate::specs::Reading::ended_by_semicolon))]
    pub fn ended_local(&self, tokens: &mut Tokens<'_>) -> Result<Stmt, ReadError>
        ensures gives { Gives (spec.ended_by_semicolon (spec.local self.now.bytes.now) tokens.old.left.now) result tokens.new.left.now }
        ensures fewer { OnOk result (length tokens.new.left.now < length tokens.old.left.now) }
    {
        let local = self.local(tokens)?;
        tokens.ended(Word::Semicolon, local)
    }

    #[tactic(auto, unfolding(crate::specs::Reading::ended_by_semicolon))]
    pub fn ended_simple(&self, tokens: &mut Tokens<'_>) -> Result<Stmt, ReadError>
        ensures gives { Gives (spec.ended_by_semicolon (spec.simple self.now.bytes.now) tokens.old.left.now) result tokens.new.left.now }
        ensures fewer { OnOk result (length tokens.new.left.now < length tokens.old.left.now) }
    {
        let simple = self.simple(tokens)?;
        tokens.ended(Word::Semicolon, simple)
    }

    // The first part of a `for`.
    fn first(&self, tokens: &mut Tokens<'_>) -> Result<Stmt, ReadError>
        ensures gives { Gives (spec.first self.now.bytes.now tokens.old.left.now) result tokens.new.left.now }
        ensures fewer { OnOk result (length tokens.new.left.now < length tokens.old.left.now) }
    {
        if tokens.see_local() {
            self.local(tokens)
        } else {
            self.simple(tokens)
        }
    }

    // A print or a simple statement.
    pub fn plain(&self, tokens: &mut Tokens<'_>) -> Result<Stmt, ReadError>
        ensures gives { Gives (spec.by_test spec.is_print (spec.print self.now.bytes.now) (spec.ended_by_semicolon (spec.simple self.now.bytes.now)) tokens.old.left.now) result tokens.new.left.now }
        ensures fewer { OnOk result (length tokens.new.left.now < length tokens.old.left.now) }
    {
        if tokens.see_print() {
            self.print(tokens)
        } else {
            self.ended_simple(tokens)
        }
    }

    fn boxed_first(&self, tokens: &mut Tokens<'_>) -> Result<Boxed<Stmt>, ReadError>
        ensures gives { Gives (spec.first self.now.bytes.now tokens.old.left.now) result tokens.new.left.now }
        ensures fewer { OnOk result (length tokens.new.left.now < length tokens.old.left.now) }
    {
        let first = self.first(tokens)?;
        Ok(Boxed::new(self.alloc, first)?)
    }

    fn boxed_simple(&self, tokens: &mut Tokens<'_>) -> Result<Boxed<Stmt>, ReadError>
        ensures gives { Gives (spec.simple self.now.bytes.now tokens.old.left.now) result tokens.new.left.now }
        ensures fewer { OnOk result (length tokens.new.left.now < length tokens.old.left.now) }
    {
        let simple = self.simple(tokens)?;
        Ok(Boxed::new(self.alloc, simple)?)
    }

    #[tactic(auto, unfolding(crate::specs::Reading::first_part))]
    fn first_part(&self, tokens: &mut Tokens<'_>) -> Result<Boxed<Stmt>, ReadError>
        ensures gives { Gives (spec.first_part self.now.bytes.now tokens.old.left.now) result tokens.new.left.now }
        ensures fewer { OnOk result (length tokens.new.left.now < length tokens.old.left.now) }
    {
        tokens.expect(Word::Open)?;
        let first = self.boxed_first(tokens)?;
        tokens.ended(Word::Semicolon, first)
    }

    #[tactic(auto, unfolding(crate::specs::Reading::test_part))]
    fn test_part(&self, tokens: &mut Tokens<'_>) -> Result<Expr, ReadError>
        ensures gives { Gives (spec.test_part self.now.bytes.now tokens.old.left.now) result tokens.new.left.now }
        ensures fewer { OnOk result (length tokens.new.left.now < length tokens.old.left.now) }
    {
        let test = self.expression(tokens)?;
        tokens.ended(Word::Semicolon, test)
    }

    #[tactic(auto, unfolding(crate::specs::Reading::last_part))]
    fn last_part(&self, tokens: &mut Tokens<'_>) -> Result<Boxed<Stmt>, ReadError>
        ensures gives { Gives (spec.last_part self.now.bytes.now tokens.old.left.now) result tokens.new.left.now }
        ensures fewer { OnOk result (length tokens.new.left.now < length tokens.old.left.now) }
    {
        let last = self.boxed_simple(tokens)?;
        tokens.ended(Word::Close, last)
    }

    #[tactic(auto, unfolding(crate::specs::Reading::for_parts))]
    pub fn for_parts(&self, tokens: &mut Tokens<'_>) -> Result<Turns, ReadError>
        ensures gives { Gives (spec.for_parts self.now.bytes.now tokens.old.left.now) result tokens.new.left.now }
        ensures fewer { OnOk result (length tokens.new.left.now < length tokens.old.left.now) }
    {
        let first = self.first_part(tokens)?;
        let test = self.test_part(tokens)?;
        let last = self.last_part(tokens)?;
        Ok(Turns { first, test, last })
    }
}
