//! The lexemes that are left.
ghost use Rattle.std.specs.Prelude.{◌≡◌, ◌+◌, length, OnOk};
ghost use Rattle.px_parse.specs.Reading as spec;
ghost use Rattle.px_parse.specs.Reading.{Gives};
ghost use Rattle.px_parse.specs.Trees.{first_token};

use crate::error::ReadError;
use px_words::{Lexeme, Word};

#[derive(Drop)]
pub struct Tokens<'a> {
    pub left: &'a [Lexeme],
}

impl Tokens<'_> {
    /// What stands next.
    pub fn peek(&self) -> Word
        ensures { result ≡ spec.next_word self.now.left.now }
    {
        match self.left {
            [first, ..] => first.word,
            [] => Word::End,
        }
    }

    #[tactic(auto, unfolding(crate::specs::Reading::same_word))]
    pub fn sees(&self, word: Word) -> bool
        ensures { result ≡ spec.sees word self.now.left.now }
    {
        self.peek() == word
    }

    /// What stands behind so many others.
    pub fn word_ahead(&self, count: usize) -> Word
        ensures { result ≡ spec.word_ahead count self.now.left.now }
    {
        match self.left.get(count) {
            Some(x) => x.word,
            None => Word::End,
        }
    }

    #[tactic(auto, unfolding(crate::specs::Reading::same_word))]
    pub fn sees_ahead(&self, count: usize, word: Word) -> bool
        ensures { result ≡ spec.same_word (spec.word_ahead count self.now.left.now) word }
    {
        self.word_ahead(count) == word
    }

    /// The number of the next token.
    pub fn next_token(&self) -> u32
        ensures { result ≡ first_token self.now.left.now }
    {
        match self.left {
            [first, ..] => first.token,
            [] => 0,
        }
    }

    #[tactic(auto, unfolding(crate::specs::Reading::take))]
    pub fn take(&mut self) -> Result<Lexeme, ReadError>
        ensures gives { Gives (spec.take self.old.left.now) result self.new.left.now }
        ensures fewer { OnOk result (length self.new.left.now + 1 ≡ length self.old.left.now) }
    {
        match self.left {
            [first, rest @ ..] => {
                self.left = rest;
                Ok(*first)
            }
            [] => Err(ReadError::Unreadable),
        }
    }

    /// The next lexeme, if it is such a word.
    #[tactic(auto, unfolding(crate::specs::Reading::expect, crate::specs::Reading::same_word))]
    pub fn expect(&mut self, word: Word) -> Result<Lexeme, ReadError>
        ensures gives { Gives (spec.expect word self.old.left.now) result self.new.left.now }
        ensures fewer { OnOk result (length self.new.left.now + 1 ≡ length self.old.left.now) }
    {
        match self.left {
            [first, rest @ ..] if first.word == word => {
                self.left = rest;
                Ok(*first)
            }
            _ => Err(ReadError::Unreadable),
        }
    }

    /// A value, where such a word stands next.
    pub fn ended<T: Drop>(&mut self, word: Word, value: T) -> Result<T, ReadError>
        ensures gives { Gives (spec.ended word value self.old.left.now) result self.new.left.now }
        ensures fewer { OnOk result (length self.new.left.now + 1 ≡ length self.old.left.now) }
    {
        self.expect(word)?;
        Ok(value)
    }
}
