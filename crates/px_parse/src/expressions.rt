//! Expressions, by how tightly their operators bind.
ghost use Rattle.std.specs.Prelude.{◌≡◌, ◌<◌, ◌≤◌, ℕ, length, OnOk};
ghost use Rattle.px_parse.specs.Reading as spec;
ghost use Rattle.px_parse.specs.Reading.{Gives, expression};
ghost use Rattle.px_parse.specs.Heads as heads;

use crate::error::ReadError;
use crate::heads::{Head, Suffix, read_operator, read_prefix, read_suffix};
use crate::source::Source;
use crate::tokens::Tokens;
use px_tree::Expr;
use px_words::{Word, right_level};
use sqlite_items::Items;

impl Source<'_> {
    // An expression and what closes it.
    #[cycle(expression)]
    #[tactic(auto, unfolding(crate::specs::Heads::closed))]
    fn closed(&self, tokens: &mut Tokens<'_>, word: Word) -> Result<Expr, ReadError>
        ensures turns { (n : ℕ) → length tokens.old.left.now < n → Gives (heads.closed (expression self.now.bytes.now n) word tokens.old.left.now) result tokens.new.left.now }
        ensures fewer { OnOk result (length tokens.new.left.now < length tokens.old.left.now) }
    {
        let inner = self.expression(tokens)?;
        tokens.ended(word, inner)
    }

    #[cycle(expression)]
    #[tactic(auto, unfolding(crate::specs::Reading::some_arguments, crate::specs::Reading::next_argument))]
    fn some_arguments(&self, tokens: &mut Tokens<'_>) -> Result<Items<Expr>, ReadError>
        ensures turns { (n : ℕ) → length tokens.old.left.now < n → Gives (spec.some_arguments (expression self.now.bytes.now n) tokens.old.left.now) result tokens.new.left.now }
        ensures fewer { OnOk result (length tokens.new.left.now < length tokens.old.left.now) }
    {
        let first = self.expression(tokens)?;
        let mut args = Items::new(self.alloc);
        args.push(first)?;
        while tokens.sees(Word::Comma) {
            tokens.take()?;
            args.push(self.expression(tokens)?)?;
        }
        Ok(args)
    }

    #[cycle(expression)]
    #[tactic(auto, unfolding(crate::specs::Reading::arguments))]
    fn arguments(&self, tokens: &mut Tokens<'_>) -> Result<Items<Expr>, ReadError>
        ensures turns { (n : ℕ) → length tokens.old.left.now ≤ n → Gives (spec.arguments (expression self.now.bytes.now n) tokens.old.left.now) result tokens.new.left.now }
        ensures fewer { OnOk result (length tokens.new.left.now < length tokens.old.left.now) }
    {
        tokens.take()?;
        if tokens.sees(Word::Close) {
            tokens.expect(Word::Close)?;
            return Ok(Items::new(self.alloc));
        }
        let args = self.some_arguments(tokens)?;
        tokens.expect(Word::Close)?;
        Ok(args)
    }

    #[cycle(expression)]
    #[tactic(auto, unfolding(crate::specs::Reading::own_call))]
    fn primary(&self, tokens: &mut Tokens<'_>) -> Result<Expr, ReadError>
        ensures turns { (n : ℕ) → length tokens.old.left.now ≤ n → Gives (spec.primary self.now.bytes.now (expression self.now.bytes.now n) tokens.old.left.now) result tokens.new.left.now }
        ensures fewer { OnOk result (length tokens.new.left.now < length tokens.old.left.now) }
    {
        match self.read_head(tokens)? {
            Head::Whole(whole) => Ok(whole),
            Head::Group(opening) => {
                let inner = self.closed(tokens, Word::Close)?;
                Ok(self.group(opening, inner)?)
            }
            Head::Call(name) => {
                let args = self.arguments(tokens)?;
                Ok(self.own_call(name, args)?)
            }
            Head::Array { new, base } => {
                let size = self.closed(tokens, Word::CloseBracket)?;
                Ok(self.array(new, base, size)?)
            }
        }
    }

    // An expression with what it goes on with.
    #[cycle(expression)]
    #[tactic(auto, unfolding(crate::specs::Reading::member_call))]
    fn suffixed(&self, tokens: &mut Tokens<'_>, of: Expr, suffix: Suffix) -> Result<Expr, ReadError>
        ensures turns { (n : ℕ) → length tokens.old.left.now < n → Gives (heads.behind_suffix self.now.bytes.now (expression self.now.bytes.now n) of suffix tokens.old.left.now) result tokens.new.left.now }
        ensures left { OnOk result (length tokens.new.left.now ≤ length tokens.old.left.now) }
    {
        match suffix {
            Suffix::Field(name) => Ok(self.field(of, name)?),
            Suffix::Call(name) => {
                let args = self.arguments(tokens)?;
                Ok(self.call(of, name, args)?)
            }
            Suffix::Index => {
                let index = self.closed(tokens, Word::CloseBracket)?;
                Ok(self.element(of, index)?)
            }
        }
    }

    // All that an expression goes on with.
    #[cycle(expression)]
    fn postfixes(&self, tokens: &mut Tokens<'_>, of: Expr) -> Result<Expr, ReadError>
        ensures turns { (n m : ℕ) → length tokens.old.left.now ≤ n → length tokens.old.left.now < m → Gives (spec.postfixes self.now.bytes.now (expression self.now.bytes.now n) m of tokens.old.left.now) result tokens.new.left.now }
        ensures left { OnOk result (length tokens.new.left.now ≤ length tokens.old.left.now) }
    {
        match read_suffix(tokens)? {
            Some(suffix) => {
                let longer = self.suffixed(tokens, of, suffix)?;
                self.postfixes(tokens, longer)
            }
            None => Ok(of),
        }
    }

    /// An expression without operators of its own.
    #[cycle(expression)]
    #[tactic(auto, unfolding(crate::specs::Reading::postfix))]
    pub fn postfix(&self, tokens: &mut Tokens<'_>) -> Result<Expr, ReadError>
        ensures gives { Gives (spec.place self.now.bytes.now tokens.old.left.now) result tokens.new.left.now }
        ensures turns { (n m : ℕ) → length tokens.old.left.now ≤ n → length tokens.old.left.now < m → Gives (spec.postfix self.now.bytes.now (expression self.now.bytes.now n) m tokens.old.left.now) result tokens.new.left.now }
        ensures fewer { OnOk result (length tokens.new.left.now < length tokens.old.left.now) }
    {
        let primary = self.primary(tokens)?;
        self.postfixes(tokens, primary)
    }

    #[cycle(expression)]
    fn operand(&self, tokens: &mut Tokens<'_>) -> Result<Expr, ReadError>
        ensures turns { (n m : ℕ) → length tokens.old.left.now ≤ n → length tokens.old.left.now < m → Gives (spec.operand self.now.bytes.now (expression self.now.bytes.now n) m tokens.old.left.now) result tokens.new.left.now }
        ensures fewer { OnOk result (length tokens.new.left.now < length tokens.old.left.now) }
    {
        match read_prefix(tokens)? {
            Some(prefix) => {
                let value = self.operand(tokens)?;
                Ok(self.prefixed(prefix.sign, prefix.first, value)?)
            }
            None => self.postfix(tokens),
        }
    }

    // Operators that bind at least so tightly, and their right sides, behind a left side.
    #[cycle(expression)]
    fn operators(&self, tokens: &mut Tokens<'_>, least: u32, left: Expr) -> Result<Expr, ReadError>
        ensures turns { (n m : ℕ) → length tokens.old.left.now ≤ n → length tokens.old.left.now < m → Gives (spec.operators self.now.bytes.now (expression self.now.bytes.now n) m least left tokens.old.left.now) result tokens.new.left.now }
        ensures left { OnOk result (length tokens.new.left.now ≤ length tokens.old.left.now) }
    {
        match read_operator(tokens, least)? {
            Some(operator) => {
                let first = self.operand(tokens)?;
                let right = self.operators(tokens, right_level(operator.sign), first)?;
                let both = self.binary(operator.sign, operator.at, left, right)?;
                self.operators(tokens, least, both)
            }
            None => Ok(left),
        }
    }

    #[cycle(expression)]
    #[tactic(auto, unfolding(crate::specs::Reading::expression, crate::specs::Reading::joined))]
    pub fn expression(&self, tokens: &mut Tokens<'_>) -> Result<Expr, ReadError>
        ensures gives { Gives (spec.value self.now.bytes.now tokens.old.left.now) result tokens.new.left.now }
        ensures turns { (n : ℕ) → length tokens.old.left.now < n → Gives (expression self.now.bytes.now n tokens.old.left.now) result tokens.new.left.now }
        ensures fewer { OnOk result (length tokens.new.left.now < length tokens.old.left.now) }
    {
        let first = self.operand(tokens)?;
        self.operators(tokens, 1, first)
    }
}
