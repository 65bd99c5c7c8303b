//! Laws of the spelling.
ghost use Rattle.px_wire.specs.Wording.{SpellingsDiffer};

/// No two messages have one spelling.
pub fn spellings_differ()
    ensures { SpellingsDiffer }
{}
