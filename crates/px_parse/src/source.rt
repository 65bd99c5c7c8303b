//! The text that is read.
ghost use Rattle.std.specs.Prelude.{◌≡◌, IfOk};
ghost use Rattle.px_lex.specs.Spelling.{spelled};
ghost use Rattle.px_parse.specs.Trees as spec;

use px_lex::spelling;
use px_tree::{Base, Expr, ExprForm, Name, TypeName};
use px_words::{Lexeme, Word, digits, inside, is_long, unescaped};
use sqlite_items::Items;
use std::alloc::{AllocError, Global};

/// A text, and where its tree goes.
#[derive(Clone, Copy)]
pub struct Source<'a> {
    pub alloc: Global,
    pub bytes: &'a [u8],
}

impl Source<'_> {
    pub fn spelling(&self, x: Lexeme) -> &[u8]
        ensures { result.now ≡ spelled self.now.bytes.now x.from x.to }
    {
        spelling(self.bytes, x.from, x.to)
    }

    pub fn name(&self, x: Lexeme) -> Result<Name, AllocError>
        ensures { IfOk result (λ name. name ≡ spec.name_of self.now.bytes.now x) }
    {
        Ok(Name {
            bytes: Items::from_slice(self.alloc, self.spelling(x))?,
            token: x.token,
        })
    }

    pub fn number(&self, x: Lexeme) -> Result<Expr, AllocError>
        ensures { IfOk result (λ e. e ≡ spec.number_of self.now.bytes.now x) }
    {
        let spelling = self.spelling(x);
        Ok(Expr {
            id: 0,
            token: x.token,
            form: ExprForm::Number {
                digits: Items::from_slice(self.alloc, digits(spelling))?,
                long: is_long(spelling),
            },
        })
    }

    pub fn text(&self, x: Lexeme) -> Result<Expr, AllocError>
        ensures { IfOk result (λ e. e ≡ spec.text_of self.now.bytes.now x) }
    {
        Ok(Expr {
            id: 0,
            token: x.token,
            form: ExprForm::Str(unescaped(self.alloc, inside(self.spelling(x)))?),
        })
    }

    /// The type of an array's elements.
    pub fn base(&self, x: Lexeme) -> Result<Base, AllocError>
        ensures { IfOk result (λ base. base ≡ spec.base_of self.now.bytes.now x) }
    {
        match x.word {
            Word::Int => Ok(Base::Int),
            Word::Long => Ok(Base::Long),
            Word::Boolean => Ok(Base::Boolean),
            Word::StringType => Ok(Base::Str),
            _ => Ok(Base::Class(self.name(x)?)),
        }
    }

    /// A type that isn't an array's.
    pub fn single_type(&self, x: Lexeme) -> Result<TypeName, AllocError>
        ensures { IfOk result (λ ty. ty ≡ spec.single_type_of self.now.bytes.now x) }
    {
        let base = match x.word {
            Word::ResultSet => Base::ResultSet,
            _ => self.base(x)?,
        };
        Ok(TypeName {
            base,
            array: false,
            token: x.token,
        })
    }

    pub fn array_type(&self, x: Lexeme) -> Result<TypeName, AllocError>
        ensures { IfOk result (λ ty. ty ≡ spec.array_type_of self.now.bytes.now x) }
    {
        Ok(TypeName {
            base: self.base(x)?,
            array: true,
            token: x.token,
        })
    }
}
