//! Declarations of locals.
ghost use Rattle.std.specs.Prelude.{◌≡◌, ◌<◌, length, OnOk, IfOk};
ghost use Rattle.px_parse.specs.Reading as spec;
ghost use Rattle.px_parse.specs.Reading.{Gives};
ghost use Rattle.px_parse.specs.Trees as tree;
ghost use Rattle.px_words.specs.Words as words;

use crate::error::ReadError;
use crate::source::Source;
use crate::tokens::Tokens;
use px_tree::{Expr, Stmt, StmtForm, TypeName};
use px_words::{Lexeme, Word};
use std::alloc::AllocError;

fn is_primitive(word: Word) -> bool
    ensures { result ≡ words.is_primitive word }
{
    matches!(word, Word::Int | Word::Long | Word::Boolean)
}

impl Tokens<'_> {
    /// Whether a type and a name stand next.
    pub fn see_local(&self) -> bool
        ensures { result ≡ spec.is_local self.now.left.now }
    {
        let word = self.peek();
        let ahead = self.word_ahead(1);
        is_primitive(word)
            || word.is_name()
                && (ahead.is_name()
                    || self.sees_ahead(1, Word::OpenBracket)
                        && self.sees_ahead(2, Word::CloseBracket))
    }
}

impl Source<'_> {
    fn local_of(&self, ty: TypeName, name: Lexeme, value: Expr) -> Result<Stmt, AllocError>
        ensures { IfOk result (λ s. s ≡ tree.local_of self.now.bytes.now ty name value) }
    {
        let name = self.name(name)?;
        Ok(Stmt {
            id: 0,
            token: ty.token,
            form: StmtForm::Local { ty, name, value },
        })
    }

    /// A declaration without its `;`.
    #[tactic(auto, unfolding(crate::specs::Reading::local))]
    pub fn local(&self, tokens: &mut Tokens<'_>) -> Result<Stmt, ReadError>
        ensures gives { Gives (spec.local self.now.bytes.now tokens.old.left.now) result tokens.new.left.now }
        ensures fewer { OnOk result (length tokens.new.left.now < length tokens.old.left.now) }
    {
        let ty = self.type_name(tokens)?;
        let name = tokens.take()?;
        tokens.expect(Word::Assign)?;
        let value = self.expression(tokens)?;
        Ok(self.local_of(ty, name, value)?)
    }
}
