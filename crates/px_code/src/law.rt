//! What holds of code, as theorems about its definitions.
ghost use Rattle.px_code.specs.Law.{PointsToMainAlone, KeepsItsHome, StepsStay};
ghost use Rattle.px_code.specs.OneCut.{CutIsOne};

/// As long as no statement allocates, every reference leads to the object of Main: site 0.
pub fn points_to_main_alone()
    ensures { PointsToMainAlone }
{}

/// A side keeps what is at home there.
pub fn keeps_its_home()
    ensures { KeepsItsHome }
{}

/// Statements of a method read and write only what points-to says, on a heap of the right shape, and leave one.
/// No literal in them may be a reference: points-to would miss where it leads.
pub fn steps_stay()
    ensures { StepsStay }
{}

/// Code at a placement is cut in one way: the blocks, their sends, their exits and the first of each method.
pub fn cut_is_one()
    ensures { CutIsOne }
{}
