//! What all frames of a call share.
ghost use Rattle.std.specs.Prelude.{◌≡◌};
ghost use Rattle.px_plain.specs.View.{shared_of, Ends, Keeps, IfKept};

use crate::asked::Asked;
use crate::prints::Prints;
use crate::store::Store;

#[derive(Drop)]
pub struct Machine {
    pub store: Store,
    pub prints: Prints,
    /// How many tests of loops and calls of methods there were.
    pub turns: u32,
    pub asked: Asked,
}
