//! Expressions and statements from their parts.
ghost use Rattle.std.specs.Prelude.{◌≡◌, IfOk, None, Some};
ghost use Rattle.px_parse.specs.Trees as tree;

use crate::parts::{Braces, Turns};
use crate::source::Source;
use px_tree::{Expr, ExprForm, Sign, Stmt, StmtForm};
use px_words::{Lexeme, Word};
use sqlite_items::{Boxed, Items};
use std::alloc::AllocError;

/// `true`, `false`, `null` or `this`.
pub fn word_form(word: Word) -> Option<ExprForm>
    ensures { result ≡ tree.word_form word }
{
    match word {
        Word::True => Some(ExprForm::True),
        Word::False => Some(ExprForm::False),
        Word::Null => Some(ExprForm::Null),
        Word::This => Some(ExprForm::This),
        _ => None,
    }
}

pub fn expression_of(token: u32, form: ExprForm) -> Expr
    ensures { result ≡ tree.expression_of token form }
{
    Expr { id: 0, token, form }
}

impl Source<'_> {
    pub fn variable(&self, x: Lexeme) -> Result<Expr, AllocError>
        ensures { IfOk result (λ e. e ≡ tree.variable_of self.now.bytes.now x) }
    {
        Ok(expression_of(x.token, ExprForm::Name(self.name(x)?)))
    }

    pub fn group(&self, opening: Lexeme, inner: Expr) -> Result<Expr, AllocError>
        ensures { IfOk result (λ e. e ≡ tree.group_of opening inner) }
    {
        let inner = Boxed::new(self.alloc, inner)?;
        Ok(expression_of(opening.token, ExprForm::Group(inner)))
    }

    pub fn field(&self, of: Expr, name: Lexeme) -> Result<Expr, AllocError>
        ensures { IfOk result (λ e. e ≡ tree.field_of self.now.bytes.now of name) }
    {
        let token = of.token;
        let of = Boxed::new(self.alloc, of)?;
        let name = self.name(name)?;
        Ok(expression_of(token, ExprForm::Field { of, name }))
    }

    pub fn element(&self, of: Expr, index: Expr) -> Result<Expr, AllocError>
        ensures { IfOk result (λ e. e ≡ tree.element_of of index) }
    {
        let token = of.token;
        let of = Boxed::new(self.alloc, of)?;
        let index = Boxed::new(self.alloc, index)?;
        Ok(expression_of(token, ExprForm::Index { of, index }))
    }

    pub fn own_call(&self, name: Lexeme, args: Items<Expr>) -> Result<Expr, AllocError>
        ensures { IfOk result (λ e. e ≡ tree.own_call_of self.now.bytes.now name args) }
    {
        let token = name.token;
        let name = self.name(name)?;
        Ok(expression_of(
            token,
            ExprForm::Call {
                of: None,
                name,
                args,
            },
        ))
    }

    pub fn call(&self, of: Expr, name: Lexeme, args: Items<Expr>) -> Result<Expr, AllocError>
        ensures { IfOk result (λ e. e ≡ tree.call_of self.now.bytes.now of name args) }
    {
        let token = of.token;
        let of = Some(Boxed::new(self.alloc, of)?);
        let name = self.name(name)?;
        Ok(expression_of(token, ExprForm::Call { of, name, args }))
    }

    pub fn object(&self, new: Lexeme, name: Lexeme) -> Result<Expr, AllocError>
        ensures { IfOk result (λ e. e ≡ tree.object_of self.now.bytes.now new name) }
    {
        Ok(expression_of(new.token, ExprForm::NewObject(self.name(name)?)))
    }

    pub fn array(&self, new: Lexeme, base: Lexeme, length: Expr) -> Result<Expr, AllocError>
        ensures { IfOk result (λ e. e ≡ tree.array_of self.now.bytes.now new base length) }
    {
        let base = self.base(base)?;
        let length = Boxed::new(self.alloc, length)?;
        Ok(expression_of(new.token, ExprForm::NewArray { base, length }))
    }

    pub fn prefixed(&self, sign: Sign, first: Lexeme, value: Expr) -> Result<Expr, AllocError>
        ensures { IfOk result (λ e. e ≡ tree.prefix_of sign first value) }
    {
        let value = Boxed::new(self.alloc, value)?;
        Ok(expression_of(first.token, ExprForm::Prefix { sign, value }))
    }

    pub fn binary(
        &self,
        sign: Sign,
        at: Lexeme,
        left: Expr,
        right: Expr,
    ) -> Result<Expr, AllocError>
        ensures { IfOk result (λ e. e ≡ tree.binary_of sign at left right) }
    {
        let token = left.token;
        let left = Boxed::new(self.alloc, left)?;
        let right = Boxed::new(self.alloc, right)?;
        Ok(expression_of(
            token,
            ExprForm::Binary {
                sign,
                sign_token: at.token,
                left,
                right,
            },
        ))
    }
}

fn unnumbered(token: u32, form: StmtForm) -> Stmt
    ensures { result ≡ tree.statement_of token form }
{
    Stmt { id: 0, token, form }
}

pub fn block_of(braces: Braces) -> Stmt
    ensures { result ≡ tree.block_of braces.opening braces.items }
{
    unnumbered(braces.opening.token, StmtForm::Block(braces.items))
}

pub fn empty_of(semicolon: Lexeme) -> Stmt
    ensures { result ≡ tree.empty_of semicolon }
{
    unnumbered(semicolon.token, StmtForm::Empty)
}

pub fn if_of(x: Lexeme, test: Expr, yes: Boxed<Stmt>, no: Option<Boxed<Stmt>>) -> Stmt
    ensures { result ≡ tree.if_of x test yes no }
{
    unnumbered(x.token, StmtForm::If { test, yes, no })
}

pub fn while_of(x: Lexeme, test: Expr, body: Boxed<Stmt>) -> Stmt
    ensures { result ≡ tree.while_of x test body }
{
    unnumbered(x.token, StmtForm::While { test, body })
}

pub fn for_of(x: Lexeme, turns: Turns, body: Boxed<Stmt>) -> Stmt
    ensures { result ≡ tree.for_of x turns.first turns.test turns.last body }
{
    let Turns { first, test, last } = turns;
    unnumbered(
        x.token,
        StmtForm::For {
            first,
            test,
            last,
            body,
        },
    )
}

pub fn return_of(x: Lexeme, value: Option<Expr>) -> Stmt
    ensures { result ≡ tree.return_of x value }
{
    unnumbered(x.token, StmtForm::Return(value))
}

pub fn print_of(system: Lexeme, value: Expr) -> Stmt
    ensures { result ≡ tree.print_of system value }
{
    unnumbered(system.token, StmtForm::Print(value))
}
