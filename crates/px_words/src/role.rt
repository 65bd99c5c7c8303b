//! What each word is to the acceptor.
ghost use Rattle.std.specs.Prelude.{◌≡◌, IfOk};
ghost use Rattle.px_words.specs.Roles as spec;

use crate::lexeme::{Lexeme, Word};
use px_accept::{Role, Spelling};
use std::alloc::{AllocError, Global};

pub fn role_of(word: Word) -> Role
    ensures { result ≡ spec.role_of word }
{
    match word {
        Word::Public => Role::Public,
        Word::Private => Role::Private,
        Word::Class => Role::Class,
        Word::Int | Word::Long => Role::Integral,
        Word::Boolean => Role::Boolean,
        Word::Void => Role::Void,
        Word::Throws => Role::Throws,
        Word::If => Role::If,
        Word::Else => Role::Else,
        Word::While => Role::While,
        Word::For => Role::For,
        Word::Return => Role::Return,
        Word::New => Role::New,
        Word::This | Word::True | Word::False | Word::Null | Word::Number | Word::Text =>
            Role::Value,
        Word::Name | Word::StringType | Word::ResultSet | Word::Db => Role::Name(Spelling::Plain),
        Word::Create => Role::Name(Spelling::Create),
        Word::Table => Role::Name(Spelling::Table),
        Word::ColumnLong | Word::ColumnText => Role::Name(Spelling::Column),
        Word::System => Role::Name(Spelling::System),
        Word::Out => Role::Name(Spelling::Out),
        Word::Println => Role::Name(Spelling::Println),
        Word::SqlException => Role::Name(Spelling::SqlException),
        Word::OpenBrace => Role::OpenBrace,
        Word::CloseBrace => Role::CloseBrace,
        Word::Open => Role::Open,
        Word::Close => Role::Close,
        Word::OpenBracket => Role::OpenBracket,
        Word::CloseBracket => Role::CloseBracket,
        Word::Comma => Role::Comma,
        Word::Semicolon => Role::Semicolon,
        Word::Dot => Role::Dot,
        Word::Assign => Role::Assign,
        Word::PlusAssign
        | Word::MinusAssign
        | Word::TimesAssign
        | Word::OverAssign
        | Word::RestAssign
        | Word::AndAssign
        | Word::OrAssign
        | Word::XorAssign
        | Word::ShlAssign
        | Word::ShrAssign
        | Word::UshrAssign => Role::Compound,
        Word::Increment | Word::Decrement => Role::Step,
        Word::Minus => Role::Minus,
        Word::Not | Word::Inv => Role::Not,
        Word::Unused | Word::Bad => Role::Other,
        Word::End => Role::End,
        _ => Role::Infix,
    }
}

pub fn roles(alloc: Global, lexemes: &[Lexeme]) -> Result<Vec<Role>, AllocError>
    ensures { IfOk result (λ v. v.items ≡ spec.roles_of lexemes.now) }
{
    let mut roles = Vec::with_capacity(alloc, lexemes.len())?;
    for x in lexemes {
        roles.push(role_of(x.word))?;
    }
    Ok(roles)
}
