//! Statements that hold statements, and blocks.
ghost use Rattle.std.specs.Prelude.{◌≡◌, ◌<◌, ◌≤◌, ℕ, [], length, OnOk};
ghost use Rattle.px_parse.specs.Reading as spec;
ghost use Rattle.px_parse.specs.Reading.{Gives};

use crate::error::ReadError;
use crate::nodes::{block_of, for_of, if_of, while_of};
use crate::parts::Braces;
use crate::source::Source;
use crate::tokens::Tokens;
use px_tree::{Expr, Stmt};
use px_words::{Lexeme, Word};
use sqlite_items::{Boxed, Items};

impl Source<'_> {
    #[cycle(block)]
    fn boxed_statement(&self, tokens: &mut Tokens<'_>) -> Result<Boxed<Stmt>, ReadError>
        ensures gives { (n : ℕ) → length tokens.old.left.now < n → Gives (spec.statement self.now.bytes.now n tokens.old.left.now) result tokens.new.left.now }
        ensures fewer { OnOk result (length tokens.new.left.now < length tokens.old.left.now) }
    {
        let statement = self.statement(tokens)?;
        Ok(Boxed::new(self.alloc, statement)?)
    }

    // Behind the first part of an `if`.
    #[cycle(block)]
    #[tactic(auto, unfolding(crate::specs::Reading::otherwise))]
    fn otherwise(
        &self,
        tokens: &mut Tokens<'_>,
        x: Lexeme,
        test: Expr,
        yes: Boxed<Stmt>,
    ) -> Result<Stmt, ReadError>
        ensures gives { (n : ℕ) → length tokens.old.left.now ≤ n → Gives (spec.otherwise (spec.statement self.now.bytes.now n) x test yes tokens.old.left.now) result tokens.new.left.now }
        ensures fewer { OnOk result (length tokens.new.left.now < length tokens.old.left.now) }
    {
        tokens.take()?;
        let no = self.boxed_statement(tokens)?;
        Ok(if_of(x, test, yes, Some(no)))
    }

    #[cycle(block)]
    #[tactic(auto, unfolding(crate::specs::Reading::conditional))]
    fn conditional(&self, tokens: &mut Tokens<'_>) -> Result<Stmt, ReadError>
        ensures gives { (n : ℕ) → length tokens.old.left.now ≤ n → Gives (spec.conditional self.now.bytes.now (spec.statement self.now.bytes.now n) tokens.old.left.now) result tokens.new.left.now }
        ensures fewer { OnOk result (length tokens.new.left.now < length tokens.old.left.now) }
    {
        let x = tokens.take()?;
        let test = self.condition(tokens)?;
        let yes = self.boxed_statement(tokens)?;
        if tokens.sees(Word::Else) {
            self.otherwise(tokens, x, test, yes)
        } else {
            Ok(if_of(x, test, yes, None))
        }
    }

    #[cycle(block)]
    #[tactic(auto, unfolding(crate::specs::Reading::while_loop))]
    fn while_loop(&self, tokens: &mut Tokens<'_>) -> Result<Stmt, ReadError>
        ensures gives { (n : ℕ) → length tokens.old.left.now ≤ n → Gives (spec.while_loop self.now.bytes.now (spec.statement self.now.bytes.now n) tokens.old.left.now) result tokens.new.left.now }
        ensures fewer { OnOk result (length tokens.new.left.now < length tokens.old.left.now) }
    {
        let x = tokens.take()?;
        let test = self.condition(tokens)?;
        let body = self.boxed_statement(tokens)?;
        Ok(while_of(x, test, body))
    }

    #[cycle(block)]
    #[tactic(auto, unfolding(crate::specs::Reading::for_loop))]
    fn for_loop(&self, tokens: &mut Tokens<'_>) -> Result<Stmt, ReadError>
        ensures gives { (n : ℕ) → length tokens.old.left.now ≤ n → Gives (spec.for_loop self.now.bytes.now (spec.statement self.now.bytes.now n) tokens.old.left.now) result tokens.new.left.now }
        ensures fewer { OnOk result (length tokens.new.left.now < length tokens.old.left.now) }
    {
        let x = tokens.take()?;
        let turns = self.for_parts(tokens)?;
        let body = self.boxed_statement(tokens)?;
        Ok(for_of(x, turns, body))
    }

    #[cycle(block)]
    fn statement(&self, tokens: &mut Tokens<'_>) -> Result<Stmt, ReadError>
        ensures gives { (n : ℕ) → length tokens.old.left.now < n → Gives (spec.statement self.now.bytes.now n tokens.old.left.now) result tokens.new.left.now }
        ensures fewer { OnOk result (length tokens.new.left.now < length tokens.old.left.now) }
    {
        match tokens.peek() {
            Word::OpenBrace => self.braced(tokens),
            Word::Semicolon => self.empty(tokens),
            Word::If => self.conditional(tokens),
            Word::While => self.while_loop(tokens),
            Word::For => self.for_loop(tokens),
            Word::Return => self.returned(tokens),
            _ => self.plain(tokens),
        }
    }

    #[cycle(block)]
    #[tactic(auto, unfolding(crate::specs::Reading::item))]
    fn item(&self, tokens: &mut Tokens<'_>) -> Result<Stmt, ReadError>
        ensures gives { (n : ℕ) → length tokens.old.left.now < n → Gives (spec.item self.now.bytes.now (spec.statement self.now.bytes.now n) tokens.old.left.now) result tokens.new.left.now }
        ensures fewer { OnOk result (length tokens.new.left.now < length tokens.old.left.now) }
    {
        if tokens.see_local() {
            self.ended_local(tokens)
        } else {
            self.statement(tokens)
        }
    }

    // What stands before a `}`.
    #[cycle(block)]
    fn items(&self, tokens: &mut Tokens<'_>) -> Result<Items<Stmt>, ReadError>
        ensures gives { (n : ℕ) → length tokens.old.left.now < n → Gives (spec.all_while (spec.sees_no Word.CloseBrace) (spec.item self.now.bytes.now (spec.statement self.now.bytes.now n)) [] tokens.old.left.now) result tokens.new.left.now }
        ensures fewer { OnOk result (length tokens.new.left.now ≤ length tokens.old.left.now) }
    {
        let mut items = Items::new(self.alloc);
        // Each item takes a token.
        for _turn in 0..tokens.left.len() {
            if tokens.sees(Word::CloseBrace) {
                return Ok(items);
            }
            items.push(self.item(tokens)?)?;
        }
        Ok(items)
    }

    #[cycle(block)]
    #[tactic(auto, unfolding(crate::specs::Reading::block))]
    fn block(&self, tokens: &mut Tokens<'_>) -> Result<Braces, ReadError>
        ensures gives { (n : ℕ) → length tokens.old.left.now ≤ n → Gives (spec.block self.now.bytes.now (spec.statement self.now.bytes.now n) tokens.old.left.now) result tokens.new.left.now }
        ensures fewer { OnOk result (length tokens.new.left.now < length tokens.old.left.now) }
    {
        let opening = tokens.expect(Word::OpenBrace)?;
        let items = self.items(tokens)?;
        let closing = tokens.expect(Word::CloseBrace)?;
        Ok(Braces {
            opening,
            items,
            to: closing.token,
        })
    }

    // A block that is a statement.
    #[cycle(block)]
    #[tactic(auto, unfolding(crate::specs::Reading::braced))]
    fn braced(&self, tokens: &mut Tokens<'_>) -> Result<Stmt, ReadError>
        ensures gives { (n : ℕ) → length tokens.old.left.now ≤ n → Gives (spec.braced self.now.bytes.now (spec.statement self.now.bytes.now n) tokens.old.left.now) result tokens.new.left.now }
        ensures fewer { OnOk result (length tokens.new.left.now < length tokens.old.left.now) }
    {
        let block = self.block(tokens)?;
        Ok(block_of(block))
    }

    /// The body of a method.
    pub fn body(&self, tokens: &mut Tokens<'_>) -> Result<Braces, ReadError>
        ensures gives { Gives (spec.body self.now.bytes.now tokens.old.left.now) result tokens.new.left.now }
        ensures fewer { OnOk result (length tokens.new.left.now < length tokens.old.left.now) }
    {
        self.block(tokens)
    }
}
