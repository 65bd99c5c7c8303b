//! Laws of the choice and of the cost.
ghost use Rattle.px_choose.specs.Laws.{ChoiceIsOne, ChoicesAreGood, FlipCosts, MoveCosts};

/// The rule fixes one placement.
pub fn choice_is_one()
    ensures { ChoiceIsOne }
{}

/// What the rule fixes has the bounds that `choose` promises.
pub fn choices_are_good()
    ensures { ChoicesAreGood }
{}

/// The flip of a free node changes the cost by what the edges at it change.
pub fn flip_costs()
    ensures { FlipCosts }
{}

/// A move of nodes changes the cost by what the edges with one end among those that go change.
pub fn move_costs()
    ensures { MoveCosts }
{}
