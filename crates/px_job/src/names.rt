//! Identifiers with a dot between them.

ghost use Rattle.std.specs.Prelude.{◌≡◌, ◌<◌, length, IfSome};
ghost use Rattle.px_job.specs.Names.{dot_in, is_dotted};

use px_lex::is_identifier;

/// Whether the word is two identifiers with a dot between them.
pub(crate) fn is_dotted(word: &[u8]) -> bool
    ensures { result ≡ is_dotted word.now }
{
    match dot_in(word) {
        Some(dot) => is_identifier(&word[..dot]) && is_identifier(&word[dot + 1..]),
        None => false,
    }
}

// Where the first dot stands.
#[tactic(auto, unfolding(crate::specs::Names::dot_in))]
fn dot_in(word: &[u8]) -> Option<usize>
    ensures first { result ≡ dot_in word.now }
    ensures within { IfSome result (λ dot. dot < length word.now) }
{
    word.iter().position(|byte| *byte == b'.')
}
