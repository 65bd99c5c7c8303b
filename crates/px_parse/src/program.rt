//! From a text to its program.
ghost use Rattle.std.specs.Prelude.{◌≡◌, ◌<◌, ◌^◌, ℕ, length, option_map, IfOk};
ghost use Rattle.px_lex.specs.Cutting.{tokens_of};
ghost use Rattle.px_parse.specs.Grammar.{SpellsProgram};
ghost use Rattle.px_words.specs.Lexemes.{lexemes_of};
ghost use Rattle.px_parse.specs.Places as places;
ghost use Rattle.px_parse.specs.Places.{IsRefusedAt};
ghost use Rattle.px_parse.specs.Programs.{IsJudged, IsProgram, IsProgramText};

use crate::error::{ParseError, ReadError};
use crate::source::Source;
use crate::whole::Declared;
use px_accept::first_refused;
use px_lex::Token;
use px_tree::{Program, number};
use px_words::{Lexeme, lexemes, roles};
use sqlite_items::Items;
use std::alloc::{AllocError, Global};

/// A text in tokens, and whether it is a program.
#[derive(Drop)]
struct Judged {
    tokens: Vec<Token>,
    lexemes: Vec<Lexeme>,
    /// The line at which it is refused.
    refused: Option<u32>,
}

/// The line of a token, or of the last one where there are no more.
pub fn line_at(tokens: &[Token], at: usize) -> u32
    ensures { result ≡ places.line_at tokens.now at }
{
    match (tokens.get(at), tokens.last()) {
        (Some(token), _) | (None, Some(token)) => token.line,
        (None, None) => 1,
    }
}

fn line_of(tokens: &[Token], place: Option<usize>) -> Option<u32>
    ensures { result ≡ option_map (places.line_at tokens.now) place }
{
    match place {
        Some(at) => Some(line_at(tokens, at)),
        None => None,
    }
}

fn judge(alloc: Global, bytes: &[u8]) -> Result<Judged, AllocError>
    requires { length bytes.now < 2 ^ 31 }
    ensures tokens { IfOk result (λ j. j.tokens.items ≡ tokens_of bytes.now) }
    ensures lexemes { IfOk result (λ j. j.lexemes.items ≡ lexemes_of bytes.now (tokens_of bytes.now)) }
    ensures refused { IfOk result (λ j. IsJudged bytes.now j.refused) }
{
    let tokens = px_lex::lex(alloc, bytes)?;
    let lexemes = lexemes(alloc, bytes, &tokens)?;
    let roles = roles(alloc, &lexemes)?;
    let place = first_refused(alloc, &roles)?;
    let refused = line_of(&tokens, place);
    Ok(Judged {
        tokens,
        lexemes,
        refused,
    })
}

/// The line of the first token up to which no program begins so, or at which it would nest too deep; none where the text is a program. The
/// end of the text is a token too.
pub fn refused_line(alloc: Global, bytes: &[u8]) -> Result<Option<u32>, AllocError>
    requires { length bytes.now < 2 ^ 31 }
    ensures { IfOk result (λ line. IsJudged bytes.now line) }
{
    Ok(judge(alloc, bytes)?.refused)
}

// What is declared by a text that is a program.
fn declared(alloc: Global, bytes: &[u8], lexemes: &[Lexeme]) -> Result<Declared, AllocError>
    requires text { IsProgramText bytes.now }
    requires lexemes { lexemes.now ≡ lexemes_of bytes.now (tokens_of bytes.now) }
    ensures { IfOk result (λ d. SpellsProgram bytes.now d (lexemes_of bytes.now (tokens_of bytes.now))) }
{
    let source = Source { alloc, bytes };
    match source.whole(lexemes) {
        Ok(declared) => Ok(declared),
        Err(ReadError::NoMemory) => Err(AllocError),
        // What is a program is read.
        Err(ReadError::Unreadable) => unreachable!(),
    }
}

// The program of a text that is one.
fn program_of(
    alloc: Global,
    bytes: &[u8],
    tokens: Vec<Token>,
    lexemes: &[Lexeme],
) -> Result<Program, AllocError>
    requires text { IsProgramText bytes.now }
    requires tokens { tokens.items ≡ tokens_of bytes.now }
    requires lexemes { lexemes.now ≡ lexemes_of bytes.now (tokens_of bytes.now) }
    ensures { IfOk result (λ p. IsProgram bytes.now p) }
{
    let declared = declared(alloc, bytes, lexemes)?;
    let Declared { tables, classes } = declared;
    let classes = number(alloc, classes)?;
    Ok(Program {
        tables,
        classes,
        tokens: Items::from_vec(tokens),
    })
}

/// The program of a text. A refusal tells the line of the first token up to which no program begins so, or at which it would nest too deep;
/// the end of the text is a token too.
pub fn parse(alloc: Global, bytes: &[u8]) -> Result<Program, ParseError>
    requires { length bytes.now < 2 ^ 31 }
    ensures found { IfOk result (λ p. IsProgram bytes.now p) }
    ensures refused { (line : ℕ) → result ≡ Err (ParseError.Syntax line) → IsRefusedAt bytes.now line }
{
    let Judged {
        tokens,
        lexemes,
        refused,
    } = judge(alloc, bytes)?;
    match refused {
        Some(line) => Err(ParseError::Syntax { line }),
        None => Ok(program_of(alloc, bytes, tokens, &lexemes)?),
    }
}
