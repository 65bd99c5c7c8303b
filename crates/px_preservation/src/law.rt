//! What holds of the code that a program is lowered to.

ghost use Rattle.px_preservation.specs.Laws.{KeepsMeaning};

/// The code of a typed program does what the program does.
pub fn keeps_meaning<Q, W>()
    ensures { KeepsMeaning Q W }
{}
