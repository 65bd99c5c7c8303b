//! What stood at the places that operations wrote.
ghost use Rattle.std.specs.Prelude.{◌≡◌, []};

use crate::tree::Node;
use std::alloc::Global;
use std::marker::Model;

/// A place that was written. It keeps the node of the row that stood there, so to put it back takes no memory.
#[derive(Drop)]
pub struct Past {
    pub table: u16,
    pub key: i64,
    pub node: Option<Box<Node>>,
}

impl Model for Past {
    ghost use Rattle.std.specs.Option.{option_map};
    ghost use Rattle.px_rows.specs.Tables.{Old};

    ghost Value = { Old };

    ghost view = { λ p. record { place = record { table = p.table; key = p.key }; row = option_map (λ n. n.value.row) p.node } };
}

/// The old rows of an attempt, in the order of its writes.
#[derive(Drop)]
pub struct Undo {
    pub(crate) pasts: Vec<Past>,
}

impl Model for Undo {
    ghost use Rattle.std.specs.Prelude.{List};
    ghost use Rattle.px_rows.specs.Tables.{Old};

    ghost Value = { List Old };

    ghost view = { λ u. u.pasts.items };
}

impl Undo {
    pub fn new(alloc: Global) -> Undo
        ensures { result ≡ [] }
    {
        Undo {
            pasts: Vec::new(alloc),
        }
    }

    pub fn clear(&mut self)
        ensures { self.new ≡ [] }
    {
        self.pasts.clear();
    }
}
