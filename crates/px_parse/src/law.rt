//! Laws of the definitions that the contracts cite.
ghost use Rattle.std.specs.Prelude.{ℕ, List};
ghost use Rattle.px_parse.specs.Law.{HasOneProgram, HasOneRefusal, IsFound};

/// A text has at most one program: the grammar is unambiguous.
pub fn one_program()
    ensures { (bytes : List ℕ) → HasOneProgram bytes }
{}

/// A text is refused at one line, and only where it is no program.
pub fn one_refusal()
    ensures { (bytes : List ℕ) → HasOneRefusal bytes }
{}

/// Reading by descent finds the tree of each program.
pub fn programs_are_read()
    ensures { (source : List ℕ) → IsFound source }
{}
