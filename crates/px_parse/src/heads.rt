//! What an expression begins with, before an expression in it is read.
ghost use Rattle.std.specs.Prelude.{◌≡◌, ◌<◌, ◌≤◌, ℕ, List, Some, length, IfOk, OnOk, OnSome};
ghost use Rattle.px_parse.specs.Reading as spec;
ghost use Rattle.px_parse.specs.Reading.{Reads};
ghost use Rattle.px_parse.specs.Trees as tree;
ghost use Rattle.px_words.specs.Words as words;
ghost use Rattle.px_tree.specs.declared.Expr.{Expr};
ghost use Rattle.px_parse.specs.Heads.{Leads, behind_head, behind_prefix, behind_suffix, behind_suffixes, behind_operator};

use crate::error::ReadError;
use crate::nodes::{expression_of, word_form};
use crate::source::Source;
use crate::tokens::Tokens;
use px_tree::{Expr, Sign};
use px_words::{Lexeme, Word, binary_sign, cast_to, level, prefix_sign};

/// The begin of an expression without operators.
#[derive(Drop)]
pub enum Head {
    Whole(Expr),
    /// An opening parenthesis.
    Group(Lexeme),
    /// The name of a method, before its arguments.
    Call(Lexeme),
    /// `new`, a type and an opening bracket.
    Array { new: Lexeme, base: Lexeme },
}

#[derive(Clone, Copy)]
pub struct Prefix {
    pub sign: Sign,
    pub first: Lexeme,
}

/// What an expression goes on with.
#[derive(Clone, Copy)]
pub enum Suffix {
    Field(Lexeme),
    /// The name of a method, before its arguments.
    Call(Lexeme),
    /// An opening bracket.
    Index,
}

#[derive(Clone, Copy)]
pub struct Operator {
    pub sign: Sign,
    pub at: Lexeme,
}

// An opening parenthesis and a type of numbers.
fn is_cast(tokens: &Tokens<'_>) -> bool
    ensures { result ≡ spec.is_cast tokens.now.left.now }
{
    tokens.sees(Word::Open) && (tokens.sees_ahead(1, Word::Int) || tokens.sees_ahead(1, Word::Long))
}

// A type of numbers in parentheses.
#[tactic(auto, unfolding(crate::specs::Reading::cast))]
fn read_cast(tokens: &mut Tokens<'_>) -> Result<Prefix, ReadError>
    ensures leads { (again : Reads Expr) → Leads (spec.cast again tokens.old.left.now) result (λ p. behind_prefix again again (Some p) tokens.new.left.now) }
    ensures fewer { OnOk result (length tokens.new.left.now < length tokens.old.left.now) }
{
    let first = tokens.take()?;
    let ty = tokens.take()?;
    tokens.expect(Word::Close)?;
    Ok(Prefix {
        sign: cast_to(ty.word),
        first,
    })
}

#[tactic(auto, unfolding(crate::specs::Reading::prefixed))]
pub fn read_prefix(tokens: &mut Tokens<'_>) -> Result<Option<Prefix>, ReadError>
    ensures leads { (again without : Reads Expr) → Leads (spec.operand_on (words.prefix_sign (spec.next_word tokens.old.left.now)) again without tokens.old.left.now) result (λ p. behind_prefix again without p tokens.new.left.now) }
    ensures left { OnOk result (length tokens.new.left.now ≤ length tokens.old.left.now) }
    ensures fewer { IfOk result (λ p. OnSome p (length tokens.new.left.now < length tokens.old.left.now)) }
{
    match prefix_sign(tokens.peek()) {
        Some(sign) => {
            let first = tokens.take()?;
            Ok(Some(Prefix { sign, first }))
        }
        None if is_cast(tokens) => Ok(Some(read_cast(tokens)?)),
        None => Ok(None),
    }
}

#[tactic(auto, unfolding(crate::specs::Reading::member))]
fn read_member(tokens: &mut Tokens<'_>) -> Result<Suffix, ReadError>
    ensures leads { (source : List ℕ) (inner : Reads Expr) (of : Expr) → Leads (spec.member source inner of tokens.old.left.now) result (λ s. behind_suffix source inner of s tokens.new.left.now) }
    ensures fewer { OnOk result (length tokens.new.left.now < length tokens.old.left.now) }
{
    tokens.take()?;
    let name = tokens.take()?;
    if tokens.sees(Word::Open) {
        Ok(Suffix::Call(name))
    } else {
        Ok(Suffix::Field(name))
    }
}

#[tactic(auto, unfolding(crate::specs::Reading::element, crate::specs::Heads::closed))]
pub fn read_suffix(tokens: &mut Tokens<'_>) -> Result<Option<Suffix>, ReadError>
    ensures leads { (source : List ℕ) (inner : Reads Expr) (more : Expr → Reads Expr) (of : Expr) → Leads (spec.postfix_on source inner more of (spec.next_word tokens.old.left.now) tokens.old.left.now) result (λ s. behind_suffixes source inner more of s tokens.new.left.now) }
    ensures left { OnOk result (length tokens.new.left.now ≤ length tokens.old.left.now) }
    ensures fewer { IfOk result (λ s. OnSome s (length tokens.new.left.now < length tokens.old.left.now)) }
{
    match tokens.peek() {
        Word::Dot => Ok(Some(read_member(tokens)?)),
        Word::OpenBracket => {
            tokens.take()?;
            Ok(Some(Suffix::Index))
        }
        _ => Ok(None),
    }
}

#[tactic(auto, unfolding(crate::specs::Reading::operated))]
pub fn read_operator(tokens: &mut Tokens<'_>, least: u32) -> Result<Option<Operator>, ReadError>
    ensures leads { (right : Reads Expr) (more : ℕ → Expr → Reads Expr) (left : Expr) → Leads (spec.operator_on right more least left (words.binary_sign (spec.next_word tokens.old.left.now)) tokens.old.left.now) result (λ o. behind_operator right more least left o tokens.new.left.now) }
    ensures left { OnOk result (length tokens.new.left.now ≤ length tokens.old.left.now) }
    ensures fewer { IfOk result (λ o. OnSome o (length tokens.new.left.now < length tokens.old.left.now)) }
{
    match binary_sign(tokens.peek()) {
        Some(sign) if level(sign) >= least => {
            let at = tokens.take()?;
            Ok(Some(Operator { sign, at }))
        }
        _ => Ok(None),
    }
}

impl Source<'_> {
    #[tactic(auto, unfolding(crate::specs::Reading::named))]
    fn read_named(&self, tokens: &mut Tokens<'_>) -> Result<Head, ReadError>
        ensures leads { (inner : Reads Expr) → Leads (spec.named self.now.bytes.now inner tokens.old.left.now) result (λ h. behind_head self.now.bytes.now inner h tokens.new.left.now) }
        ensures fewer { OnOk result (length tokens.new.left.now < length tokens.old.left.now) }
    {
        let name = tokens.take()?;
        if tokens.sees(Word::Open) {
            Ok(Head::Call(name))
        } else {
            Ok(Head::Whole(self.variable(name)?))
        }
    }

    #[tactic(auto, unfolding(crate::specs::Reading::worded))]
    fn read_worded(&self, tokens: &mut Tokens<'_>) -> Result<Head, ReadError>
        ensures leads { (inner : Reads Expr) → Leads (spec.worded self.now.bytes.now inner (tree.word_form (spec.next_word tokens.old.left.now)) tokens.old.left.now) result (λ h. behind_head self.now.bytes.now inner h tokens.new.left.now) }
        ensures fewer { OnOk result (length tokens.new.left.now < length tokens.old.left.now) }
    {
        match word_form(tokens.peek()) {
            Some(form) => {
                let x = tokens.take()?;
                Ok(Head::Whole(expression_of(x.token, form)))
            }
            None => self.read_named(tokens),
        }
    }

    #[tactic(auto, unfolding(crate::specs::Reading::new_object))]
    fn read_object(
        &self,
        tokens: &mut Tokens<'_>,
        new: Lexeme,
        name: Lexeme,
    ) -> Result<Head, ReadError>
        ensures leads { (inner : Reads Expr) → Leads (spec.new_object self.now.bytes.now new name tokens.old.left.now) result (λ h. behind_head self.now.bytes.now inner h tokens.new.left.now) }
        ensures fewer { OnOk result (length tokens.new.left.now < length tokens.old.left.now) }
    {
        tokens.take()?;
        tokens.expect(Word::Close)?;
        Ok(Head::Whole(self.object(new, name)?))
    }

    #[tactic(auto, unfolding(crate::specs::Reading::new_array, crate::specs::Heads::closed))]
    fn read_array(
        &self,
        tokens: &mut Tokens<'_>,
        new: Lexeme,
        base: Lexeme,
    ) -> Result<Head, ReadError>
        ensures leads { (inner : Reads Expr) → Leads (spec.new_array self.now.bytes.now inner new base tokens.old.left.now) result (λ h. behind_head self.now.bytes.now inner h tokens.new.left.now) }
        ensures fewer { OnOk result (length tokens.new.left.now < length tokens.old.left.now) }
    {
        tokens.expect(Word::OpenBracket)?;
        Ok(Head::Array { new, base })
    }

    #[tactic(auto, unfolding(crate::specs::Reading::made))]
    fn read_made(&self, tokens: &mut Tokens<'_>) -> Result<Head, ReadError>
        ensures leads { (inner : Reads Expr) → Leads (spec.made self.now.bytes.now inner tokens.old.left.now) result (λ h. behind_head self.now.bytes.now inner h tokens.new.left.now) }
        ensures fewer { OnOk result (length tokens.new.left.now < length tokens.old.left.now) }
    {
        let new = tokens.take()?;
        let x = tokens.take()?;
        if tokens.sees(Word::Open) {
            self.read_object(tokens, new, x)
        } else {
            self.read_array(tokens, new, x)
        }
    }

    #[tactic(auto, unfolding(crate::specs::Reading::primary_on, crate::specs::Reading::group, crate::specs::Heads::closed))]
    pub fn read_head(&self, tokens: &mut Tokens<'_>) -> Result<Head, ReadError>
        ensures leads { (inner : Reads Expr) → Leads (spec.primary self.now.bytes.now inner tokens.old.left.now) result (λ h. behind_head self.now.bytes.now inner h tokens.new.left.now) }
        ensures fewer { OnOk result (length tokens.new.left.now < length tokens.old.left.now) }
    {
        match tokens.peek() {
            Word::Number => {
                let x = tokens.take()?;
                Ok(Head::Whole(self.number(x)?))
            }
            Word::Text => {
                let x = tokens.take()?;
                Ok(Head::Whole(self.text(x)?))
            }
            Word::Open => {
                let opening = tokens.take()?;
                Ok(Head::Group(opening))
            }
            Word::New => self.read_made(tokens),
            _ => self.read_worded(tokens),
        }
    }
}
