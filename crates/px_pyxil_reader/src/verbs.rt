//! What the words of a line say that the line is.
ghost use Rattle.std.specs.Prelude.{◌≡◌};
ghost use Rattle.px_pyxil_reader.specs.Reading.{verb_of};
ghost use Rattle.px_pyxil_reader.specs.LineReading.{opening_of};

use px_blocks::SendKind;

/// What the first word of a line says that it is.
#[derive(Clone, Copy)]
pub(crate) enum Opening {
    Field,
    Site,
    Method,
    Send(SendKind),
    Else,
    Loop,
    End,
    /// Any other word, which should be the number of a node.
    Node,
}

/// What the word behind a node and its side says that the statement is.
#[derive(Clone, Copy)]
pub(crate) enum Verb {
    Set,
    Op,
    Get,
    Put,
    Load,
    Store,
    Len,
    New,
    Array,
    Call,
    Query,
    Update,
    Next,
    Long,
    Text,
    Print,
    Return,
}

#[tactic(auto, unfolding(crate::specs::LineReading::opening_of))]
pub(crate) fn opening_of(word: &[u8]) -> Opening
    ensures { result ≡ opening_of word.now }
{
    if word == b"field".as_slice() {
        Opening::Field
    } else if word == b"site".as_slice() {
        Opening::Site
    } else if word == b"method".as_slice() {
        Opening::Method
    } else if word == b"sendAPP".as_slice() {
        Opening::Send(SendKind::App)
    } else if word == b"sendDB".as_slice() {
        Opening::Send(SendKind::Db)
    } else if word == b"sendNative".as_slice() {
        Opening::Send(SendKind::Native)
    } else if word == b"else".as_slice() {
        Opening::Else
    } else if word == b"loop".as_slice() {
        Opening::Loop
    } else if word == b"end".as_slice() {
        Opening::End
    } else {
        Opening::Node
    }
}

#[tactic(auto, unfolding(crate::specs::Reading::verb_of))]
pub(crate) fn verb_of(word: &[u8]) -> Option<Verb>
    ensures { result ≡ verb_of word.now }
{
    if word == b"set".as_slice() {
        Some(Verb::Set)
    } else if word == b"op".as_slice() {
        Some(Verb::Op)
    } else if word == b"get".as_slice() {
        Some(Verb::Get)
    } else if word == b"put".as_slice() {
        Some(Verb::Put)
    } else if word == b"load".as_slice() {
        Some(Verb::Load)
    } else if word == b"store".as_slice() {
        Some(Verb::Store)
    } else if word == b"len".as_slice() {
        Some(Verb::Len)
    } else if word == b"new".as_slice() {
        Some(Verb::New)
    } else if word == b"array".as_slice() {
        Some(Verb::Array)
    } else if word == b"call".as_slice() {
        Some(Verb::Call)
    } else if word == b"query".as_slice() {
        Some(Verb::Query)
    } else if word == b"update".as_slice() {
        Some(Verb::Update)
    } else if word == b"next".as_slice() {
        Some(Verb::Next)
    } else if word == b"long".as_slice() {
        Some(Verb::Long)
    } else if word == b"text".as_slice() {
        Some(Verb::Text)
    } else if word == b"print".as_slice() {
        Some(Verb::Print)
    } else if word == b"return".as_slice() {
        Some(Verb::Return)
    } else {
        None
    }
}
