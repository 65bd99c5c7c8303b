//! What of tokens and identifiers no clause says.
use px_lex::TokenKind::{Bad, End, Id, Key, Number, Sign, Str};
use px_lex::{Token, TokenKind, is_identifier, lex};
use std::alloc::{AllocError, Global};

// Kind, first byte, byte behind the last, line.
type Row = (TokenKind, u32, u32, u32);

const TEXTS: [(&[u8], &[Row]); 14] = [
    (b"", &[(End, 0, 0, 1)]),
    (
        b"long x1 = 0L;\n",
        &[
            (Key, 0, 4, 1),
            (Id, 5, 7, 1),
            (Sign, 8, 9, 1),
            (Number, 10, 12, 1),
            (Sign, 12, 13, 1),
            (End, 14, 14, 2),
        ],
    ),
    // A CR ends no line.
    (
        b"a\r\rb\r\n\tc",
        &[(Id, 0, 1, 1), (Id, 3, 4, 1), (Id, 7, 8, 2), (End, 8, 8, 2)],
    ),
    // Words that only begin like keywords, and literals that are spelled as words.
    (
        b"longs $ _9 true null False",
        &[
            (Id, 0, 5, 1),
            (Id, 6, 7, 1),
            (Id, 8, 10, 1),
            (Key, 11, 15, 1),
            (Key, 16, 20, 1),
            (Id, 21, 26, 1),
            (End, 26, 26, 1),
        ],
    ),
    (
        b"007 10l2",
        &[
            (Number, 0, 1, 1),
            (Number, 1, 2, 1),
            (Number, 2, 3, 1),
            (Number, 4, 7, 1),
            (Number, 7, 8, 1),
            (End, 8, 8, 1),
        ],
    ),
    // The longest sign first.
    (
        b">>>>=>>=+++=&&|=!==-",
        &[
            (Sign, 0, 3, 1),
            (Sign, 3, 5, 1),
            (Sign, 5, 8, 1),
            (Sign, 8, 10, 1),
            (Sign, 10, 12, 1),
            (Sign, 12, 14, 1),
            (Sign, 14, 16, 1),
            (Sign, 16, 18, 1),
            (Sign, 18, 19, 1),
            (Sign, 19, 20, 1),
            (End, 20, 20, 1),
        ],
    ),
    // No such signs in the grammar.
    (
        b"->::?@#",
        &[
            (Sign, 0, 1, 1),
            (Sign, 1, 2, 1),
            (Bad, 2, 3, 1),
            (Bad, 3, 4, 1),
            (Bad, 4, 5, 1),
            (Bad, 5, 6, 1),
            (Bad, 6, 7, 1),
            (End, 7, 7, 1),
        ],
    ),
    // A comment ends at its line's LF, or with the text.
    (
        b"a//b\r\n/*\n**/c// d",
        &[(Id, 0, 1, 1), (Id, 12, 13, 3), (End, 17, 17, 3)],
    ),
    // A `/*/` isn't closed.
    (
        b"/*/",
        &[
            (Sign, 0, 1, 1),
            (Sign, 1, 2, 1),
            (Sign, 2, 3, 1),
            (End, 3, 3, 1),
        ],
    ),
    (b"/*/*/x", &[(Id, 5, 6, 1), (End, 6, 6, 1)]),
    // No comment and no string literal holds an illegal byte.
    (
        b"//\x80\n\"\x7f\"",
        &[
            (Sign, 0, 1, 1),
            (Sign, 1, 2, 1),
            (Bad, 2, 3, 1),
            (Bad, 4, 5, 2),
            (Bad, 5, 6, 2),
            (Bad, 6, 7, 2),
            (End, 7, 7, 2),
        ],
    ),
    (
        b"\"a\\\"\\n\" \"\"\"",
        &[
            (Str, 0, 7, 1),
            (Str, 8, 10, 1),
            (Bad, 10, 11, 1),
            (End, 11, 11, 1),
        ],
    ),
    // Of a literal that isn't closed on its line, or has another escape, the quote alone is bad.
    (
        b"\"a\n\"\\r\"",
        &[
            (Bad, 0, 1, 1),
            (Id, 1, 2, 1),
            (Bad, 3, 4, 2),
            (Bad, 4, 5, 2),
            (Id, 5, 6, 2),
            (Bad, 6, 7, 2),
            (End, 7, 7, 2),
        ],
    ),
    (
        b"/* a",
        &[
            (Sign, 0, 1, 1),
            (Sign, 1, 2, 1),
            (Id, 3, 4, 1),
            (End, 4, 4, 1),
        ],
    ),
];

// A case's text is short.
fn cut(alloc: Global, text: &[u8]) -> Result<Vec<Token>, AllocError> {
    if text.len() >= 1 << 31 {
        return Err(AllocError);
    }
    lex(alloc, text)
}

#[test]
fn texts_have_these_tokens(rt: HostRuntime) -> Result<(), AllocError> {
    for (text, want) in TEXTS {
        let tokens = cut(rt.alloc(), text)?;
        assert_eq!(rt; tokens.len(), want.len(), "at {text:?}");
        for (token, row) in tokens.iter().zip(want.iter()) {
            let found = (token.kind, token.from, token.to, token.line);
            assert_eq!(rt; found, *row, "at {text:?}");
        }
    }
    Ok(())
}

const NAMES: [(&[u8], bool); 12] = [
    (b"", false),
    (b"a", true),
    (b"_", true),
    (b"$9", true),
    (b"9a", false),
    (b"a.b", false),
    (b"a\x80", false),
    (b"goto", false),
    (b"null", false),
    (b"strictfp", false),
    (b"Null", true),
    (b"gotos", true),
];

#[test]
fn these_are_identifiers(rt: HostRuntime) {
    for (name, want) in NAMES {
        assert_eq!(rt; is_identifier(name), want, "{name:?}");
    }
}
