//! What is proved of the texts of parts.
ghost use Rattle.px_parts.specs.Law.{SplitIsOne};

/// The code and the parts fix the text.
pub fn split_is_one()
    ensures { SplitIsOne }
{}
