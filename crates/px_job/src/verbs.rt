//! First words of lines.

ghost use Rattle.std.specs.Prelude.{◌≡◌};
ghost use Rattle.px_job.specs.Verbs.{verb_of, setting_of};

use crate::settings::Setting;
use px_code::Side;

/// What the first word of a line says that it is.
#[derive(Clone, Copy)]
pub(crate) enum Verb {
    Set(Setting),
    Row,
    Part,
    Side(Side),
    Call,
    Load,
    Order,
}

pub(crate) fn verb_of(word: &[u8]) -> Option<Verb>
    ensures { result ≡ verb_of word.now }
{
    if word == b"row".as_slice() {
        Some(Verb::Row)
    } else if word == b"part".as_slice() {
        Some(Verb::Part)
    } else if word == b"app".as_slice() {
        Some(Verb::Side(Side::App))
    } else if word == b"db".as_slice() {
        Some(Verb::Side(Side::Db))
    } else if word == b"call".as_slice() {
        Some(Verb::Call)
    } else if word == b"load".as_slice() {
        Some(Verb::Load)
    } else if word == b"order".as_slice() {
        Some(Verb::Order)
    } else {
        Some(Verb::Set(setting_of(word)?))
    }
}

/// The setting of a name.
pub(crate) fn setting_of(word: &[u8]) -> Option<Setting>
    ensures { result ≡ setting_of word.now }
{
    if word == b"sessions".as_slice() {
        Some(Setting::Sessions)
    } else if word == b"workers".as_slice() {
        Some(Setting::Workers)
    } else if word == b"retries".as_slice() {
        Some(Setting::Retries)
    } else if word == b"alpha".as_slice() {
        Some(Setting::Alpha)
    } else if word == b"latency".as_slice() {
        Some(Setting::Latency)
    } else if word == b"perbyte".as_slice() {
        Some(Setting::PerByte)
    } else if word == b"profile".as_slice() {
        Some(Setting::Profile)
    } else {
        None
    }
}
