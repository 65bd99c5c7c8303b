//! Words, and how they are spelled.
ghost use Rattle.std.specs.Prelude.{◌≡◌, List, drop};
ghost use Rattle.std.specs.List.{list_all};
ghost use Rattle.px_sql.specs.Spelling.{keyword, sign, is_keyword, is_sign, is_identifier, is_part, begins_name, fits, fit};

use px_value::Text;

#[derive(Clone, Copy)]
pub(crate) enum Keyword {
    Select,
    From,
    Where,
    Order,
    By,
    Update,
    Set,
    Insert,
    Into,
    Values,
    Delete,
}

#[derive(Clone, Copy)]
pub(crate) enum Sign {
    Comma,
    Equal,
    /// `?`, which stands for a parameter.
    Mark,
    Open,
    Close,
}

/// A word of a statement.
#[derive(Drop)]
pub(crate) enum Word {
    Keyword(Keyword),
    /// The name of a table or a column.
    Name(Text),
    Sign(Sign),
}

fn bytes_of_keyword(k: Keyword) -> &'static [u8]
    ensures { result.now ≡ keyword k }
{
    match k {
        Keyword::Select => b"SELECT",
        Keyword::From => b"FROM",
        Keyword::Where => b"WHERE",
        Keyword::Order => b"ORDER",
        Keyword::By => b"BY",
        Keyword::Update => b"UPDATE",
        Keyword::Set => b"SET",
        Keyword::Insert => b"INSERT",
        Keyword::Into => b"INTO",
        Keyword::Values => b"VALUES",
        Keyword::Delete => b"DELETE",
    }
}

fn bytes_of_sign(s: Sign) -> &'static [u8]
    ensures { result.now ≡ sign s }
{
    match s {
        Sign::Comma => b",",
        Sign::Equal => b"=",
        Sign::Mark => b"?",
        Sign::Open => b"(",
        Sign::Close => b")",
    }
}

/// Whether the piece is the keyword, in any case.
pub(crate) fn is_keyword(k: Keyword, piece: &[u8]) -> bool
    ensures { result ≡ is_keyword k piece.now }
{
    bytes_of_keyword(k).eq_ignore_ascii_case(piece)
}

pub(crate) fn is_sign(s: Sign, piece: &[u8]) -> bool
    ensures { result ≡ is_sign s piece.now }
{
    bytes_of_sign(s) == piece
}

/// Whether the byte may stand in an identifier.
pub(crate) fn is_part(byte: u8) -> bool
    ensures { result ≡ is_part byte }
{
    byte.is_ascii_alphanumeric() || byte == b'_' || byte == b'$'
}

fn begins_name(byte: u8) -> bool
    ensures { result ≡ begins_name byte }
{
    byte.is_ascii_alphabetic() || byte == b'_' || byte == b'$'
}

fn all_parts(bytes: &[u8]) -> bool
    ensures { result ≡ list_all is_part bytes.now }
{
    bytes.iter().all(|byte| is_part(*byte))
}

fn is_identifier(piece: &[u8]) -> bool
    ensures { result ≡ is_identifier piece.now }
{
    match piece {
        [] => false,
        [byte, rest @ ..] => begins_name(*byte) && all_parts(rest),
    }
}

fn fits(word: &Word, piece: &[u8]) -> bool
    ensures { result ≡ fits word.now piece.now }
{
    match word {
        Word::Keyword(k) => is_keyword(*k, piece),
        Word::Name(name) => name.as_slice() == piece && is_identifier(piece),
        Word::Sign(s) => is_sign(*s, piece),
    }
}

/// Whether the pieces spell the words, one for one.
pub(crate) fn fit(words: &[Word], pieces: &[Text]) -> bool
    ensures { result ≡ fit words.now pieces.now }
{
    let mut words_left = words;
    let mut pieces_left = pieces;
    while let [word, more_words @ ..] = words_left {
        let [piece, more_pieces @ ..] = pieces_left else {
            return false;
        };
        if !fits(word, piece.as_slice()) {
            return false;
        }
        words_left = more_words;
        pieces_left = more_pieces;
    }
    pieces_left.is_empty()
}
