//! What an end keeps, as theorems about its definitions.
ghost use Rattle.px_half.specs.Law.{BeginIsTellable, StepsStayTellable, AbsorbedIsTellable};

/// A call begins with a stack that can be told, if the method has at most 65,536 slots and the arguments have short texts.
pub fn begin_is_tellable()
    ensures { BeginIsTellable }
{}

/// Statements leave what can be told, if their literals have short texts.
pub fn steps_stay_tellable()
    ensures { StepsStayTellable }
{}

/// A message leaves what can be told, if the stack then has at most 255 frames.
pub fn absorbed_is_tellable()
    ensures { AbsorbedIsTellable }
{}
