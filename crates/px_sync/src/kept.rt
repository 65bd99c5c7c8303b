//! What each side keeps.
ghost use Rattle.std.specs.Prelude.{◌≡◌, IfOk};
ghost use Rattle.px_sync.specs.Found.{has, read_at, reads_at, of_side, keeps, any_kept};

use crate::homes::home;
use crate::pairs::Pairs;
use crate::side::{same_side, side_at};
use px_blocks::Side;
use px_flow_points::{Pair, Points, Touch};
use px_normal::Code;
use sqlite_items::Items;
use std::alloc::{AllocError, Global};
use std::marker::Model;

/// What the statements at each side may read.
#[derive(Drop)]
pub struct Kept {
    app: Pairs,
    db: Pairs,
}

impl Model for Kept {
    ghost use Rattle.px_sync.specs.Found.{Reads};

    ghost Value = { Reads };

    ghost view = { λ kept. record { app = kept.app; db = kept.db } };
}

fn read_at(
    alloc: Global,
    sides: &[Side],
    side: Side,
    touches: &[Touch],
) -> Result<Items<Pair>, AllocError>
    ensures { IfOk result (λ pairs. pairs ≡ read_at sides.now side touches.now) }
{
    let mut pairs = Items::new(alloc);
    for touch in touches {
        if same_side(side_at(sides, touch.node), side) {
            pairs.push(touch.pair)?;
        }
    }
    Ok(pairs)
}

fn pairs_at(
    alloc: Global,
    sides: &[Side],
    side: Side,
    touches: &[Touch],
) -> Result<Pairs, AllocError>
    ensures { IfOk result (λ pairs. pairs ≡ read_at sides.now side touches.now) }
{
    let list = read_at(alloc, sides, side, touches)?;
    Pairs::new(alloc, list)
}

impl Kept {
    /// By the sides of nodes.
    pub fn new(alloc: Global, points: &Points, sides: &[Side]) -> Result<Kept, AllocError>
        ensures { IfOk result (λ kept. kept ≡ reads_at sides.now points.now.reads) }
    {
        let touches = points.all_reads();
        let app = pairs_at(alloc, sides, Side::App, touches)?;
        let db = pairs_at(alloc, sides, Side::Db, touches)?;
        Ok(Kept { app, db })
    }

    fn reads(&self, side: Side, pair: Pair) -> bool
        ensures { result ≡ has pair (of_side self.now side) }
    {
        match side {
            Side::App => self.app.has(pair),
            Side::Db => self.db.has(pair),
        }
    }

    /// Whether a side keeps a part of the objects of a site.
    pub fn keeps(&self, code: &Code, sides: &[Side], side: Side, pair: Pair) -> bool
        ensures { result ≡ keeps code.now sides.now self.now side pair }
    {
        same_side(home(code, sides, pair), side) || self.reads(side, pair)
    }

    /// Whether it keeps one of these.
    pub fn keeps_any(&self, code: &Code, sides: &[Side], side: Side, pairs: &[Pair]) -> bool
        ensures { result ≡ any_kept code.now sides.now self.now side pairs.now }
    {
        for pair in pairs {
            if self.keeps(code, sides, side, *pair) {
                return true;
            }
        }
        false
    }
}
