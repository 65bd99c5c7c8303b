//! What the tests of a message tell.
ghost use Rattle.px_control.specs.There.{TransfersAreTaken, UpdatesAreTaken};

/// New objects and cells are taken exactly where they are there, and find room.
pub fn updates_are_taken()
    ensures { UpdatesAreTaken }
{}

/// A transfer is taken exactly where all that it names is there.
pub fn transfers_are_taken()
    ensures { TransfersAreTaken }
{}
