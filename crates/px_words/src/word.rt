//! What each token is to the grammar.
ghost use Rattle.std.specs.Prelude.{◌≡◌, ◌<◌, ◌^◌, length, map, IfOk};
ghost use Rattle.px_words.specs.Lexemes.{word_among, word_of, lexeme_of, lexemes_of};

use crate::lexeme::{Lexeme, Word};
use px_lex::{Token, TokenKind, spelling};
use std::alloc::{AllocError, Global};

const KEYWORDS: [(&[u8], Word); 18] = [
    (b"public", Word::Public),
    (b"private", Word::Private),
    (b"class", Word::Class),
    (b"int", Word::Int),
    (b"long", Word::Long),
    (b"boolean", Word::Boolean),
    (b"void", Word::Void),
    (b"throws", Word::Throws),
    (b"if", Word::If),
    (b"else", Word::Else),
    (b"while", Word::While),
    (b"for", Word::For),
    (b"return", Word::Return),
    (b"new", Word::New),
    (b"this", Word::This),
    (b"true", Word::True),
    (b"false", Word::False),
    (b"null", Word::Null),
];

// Identifiers that the grammar knows by their spelling.
const NAMES: [(&[u8], Word); 11] = [
    (b"CREATE", Word::Create),
    (b"TABLE", Word::Table),
    (b"LONG", Word::ColumnLong),
    (b"TEXT", Word::ColumnText),
    (b"System", Word::System),
    (b"out", Word::Out),
    (b"println", Word::Println),
    (b"SQLException", Word::SqlException),
    (b"String", Word::StringType),
    (b"ResultSet", Word::ResultSet),
    (b"Db", Word::Db),
];

const SIGNS: [(&[u8], Word); 44] = [
    (b"{", Word::OpenBrace),
    (b"}", Word::CloseBrace),
    (b"(", Word::Open),
    (b")", Word::Close),
    (b"[", Word::OpenBracket),
    (b"]", Word::CloseBracket),
    (b",", Word::Comma),
    (b";", Word::Semicolon),
    (b".", Word::Dot),
    (b"=", Word::Assign),
    (b"+=", Word::PlusAssign),
    (b"-=", Word::MinusAssign),
    (b"*=", Word::TimesAssign),
    (b"/=", Word::OverAssign),
    (b"%=", Word::RestAssign),
    (b"&=", Word::AndAssign),
    (b"|=", Word::OrAssign),
    (b"^=", Word::XorAssign),
    (b"<<=", Word::ShlAssign),
    (b">>=", Word::ShrAssign),
    (b">>>=", Word::UshrAssign),
    (b"++", Word::Increment),
    (b"--", Word::Decrement),
    (b"+", Word::Plus),
    (b"-", Word::Minus),
    (b"*", Word::Times),
    (b"/", Word::Over),
    (b"%", Word::Rest),
    (b"&", Word::And),
    (b"|", Word::Or),
    (b"^", Word::Xor),
    (b"<<", Word::Shl),
    (b">>", Word::Shr),
    (b">>>", Word::Ushr),
    (b"<", Word::Less),
    (b"<=", Word::AtMost),
    (b">", Word::More),
    (b">=", Word::AtLeast),
    (b"==", Word::Equal),
    (b"!=", Word::Unequal),
    (b"&&", Word::Both),
    (b"||", Word::Either),
    (b"!", Word::Not),
    (b"~", Word::Inv),
];

// The word with this spelling; `other` where there is none.
fn word_among(words: &[(&[u8], Word)], spelling: &[u8], other: Word) -> Word
    ensures { result ≡ word_among (map (λ p. (p.0.now, p.1)) words.now) spelling.now other }
{
    for (bytes, word) in words {
        if *bytes == spelling {
            return *word;
        }
    }
    other
}

fn word_of(kind: TokenKind, spelling: &[u8]) -> Word
    ensures { result ≡ word_of kind spelling.now }
{
    match kind {
        TokenKind::Id => word_among(&NAMES, spelling, Word::Name),
        TokenKind::Key => word_among(&KEYWORDS, spelling, Word::Unused),
        TokenKind::Number => Word::Number,
        TokenKind::Str => Word::Text,
        TokenKind::Sign => word_among(&SIGNS, spelling, Word::Bad),
        TokenKind::Bad => Word::Bad,
        TokenKind::End => Word::End,
    }
}

fn lexeme(bytes: &[u8], number: u32, token: &Token) -> Lexeme
    ensures { result ≡ lexeme_of bytes.now number token.now }
{
    let word = word_of(token.kind, spelling(bytes, token.from, token.to));
    Lexeme {
        word,
        from: token.from,
        to: token.to,
        token: number,
    }
}

/// What each token of the text is to the grammar.
pub fn lexemes(alloc: Global, bytes: &[u8], tokens: &[Token]) -> Result<Vec<Lexeme>, AllocError>
    requires { length tokens.now < 2 ^ 32 }
    ensures { IfOk result (λ lexemes. lexemes.items ≡ lexemes_of bytes.now tokens.now) }
{
    let mut lexemes = Vec::new(alloc);
    for (number, token) in tokens.iter().enumerate() {
        lexemes.push(lexeme(bytes, number as u32, token))?;
    }
    Ok(lexemes)
}
