//! How far a piece goes that has begun: one machine for words, digits, comments and string literals.
ghost use Rattle.std.specs.Prelude.{◌≡◌, ◌^◌, length, slice_index};
ghost use Rattle.px_lex.specs.Scanning.{scan_of, next_of, ends_of, is_letter, is_digit, is_legal, Within};

#[derive(Clone, Copy)]
pub enum Scan {
    Word,
    Digits,
    Line,
    Block,
    Star,
    Text,
    Escape,
}

#[derive(Clone, Copy)]
pub enum Next {
    On(Scan),
    /// The piece ends with this byte.
    Last,
    /// The piece ends before this byte.
    Before,
    /// There is no such piece.
    Never,
}

/// The byte at a place, or 0 behind the end.
pub fn peek(bytes: &[u8], at: usize) -> u8
    ensures { result ≡ slice_index bytes.now at }
{
    if at < bytes.len() { bytes[at] } else { 0 }
}

pub fn is_letter(byte: u8) -> bool
    ensures { result ≡ is_letter byte }
{
    (byte >= b'A' && byte <= b'Z') || (byte >= b'a' && byte <= b'z') || byte == b'_' || byte == b'$'
}

pub fn is_digit(byte: u8) -> bool
    ensures { result ≡ is_digit byte }
{
    byte >= b'0' && byte <= b'9'
}

fn is_legal(byte: u8) -> bool
    ensures { result ≡ is_legal byte }
{
    (byte >= b' ' && byte <= b'~') || byte == b'\t' || byte == b'\r' || byte == b'\n'
}

/// What one byte does to a scan.
pub fn advance(scan: Scan, byte: u8) -> Next
    ensures { result ≡ next_of scan byte }
{
    match scan {
        Scan::Word => {
            if is_letter(byte) || is_digit(byte) {
                Next::On(Scan::Word)
            } else {
                Next::Before
            }
        }
        Scan::Digits => {
            if is_digit(byte) {
                Next::On(Scan::Digits)
            } else if byte == b'L' || byte == b'l' {
                Next::Last
            } else {
                Next::Before
            }
        }
        Scan::Line => {
            if byte == b'\n' {
                Next::Before
            } else if is_legal(byte) {
                Next::On(Scan::Line)
            } else {
                Next::Never
            }
        }
        Scan::Block => {
            if byte == b'*' {
                Next::On(Scan::Star)
            } else if is_legal(byte) {
                Next::On(Scan::Block)
            } else {
                Next::Never
            }
        }
        Scan::Star => {
            if byte == b'/' {
                Next::Last
            } else if byte == b'*' {
                Next::On(Scan::Star)
            } else if is_legal(byte) {
                Next::On(Scan::Block)
            } else {
                Next::Never
            }
        }
        Scan::Text => {
            if byte == b'"' {
                Next::Last
            } else if byte == b'\\' {
                Next::On(Scan::Escape)
            } else if byte == b'\n' {
                Next::Never
            } else if is_legal(byte) {
                Next::On(Scan::Text)
            } else {
                Next::Never
            }
        }
        Scan::Escape => {
            if byte == b'n' || byte == b't' || byte == b'"' || byte == b'\\' {
                Next::On(Scan::Text)
            } else {
                Next::Never
            }
        }
    }
}

fn ends(scan: Scan) -> bool
    ensures { result ≡ ends_of scan }
{
    match scan {
        Scan::Word | Scan::Digits | Scan::Line => true,
        _ => false,
    }
}

/// How many of the bytes belong to the piece, if there is one.
pub fn reach(start: Scan, bytes: &[u8]) -> Option<usize>
    ensures is { result ≡ scan_of start bytes.now }
    ensures small { Within result (2 ^ 63) }
    ensures within { Within result (length bytes.now) }
{
    let mut state = start;
    for (place, byte) in bytes.iter().enumerate() {
        match advance(state, *byte) {
            Next::On(more) => state = more,
            Next::Last => return Some(place + 1),
            Next::Before => return Some(place),
            Next::Never => return None,
        }
    }
    if ends(state) { Some(bytes.len()) } else { None }
}
