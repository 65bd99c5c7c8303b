//! Pairs by the nodes of the statements that they belong to.
ghost use Rattle.std.specs.Prelude.{◌≡◌, [], IfOk};
ghost use Rattle.px_flow_points.specs.ByNode.{AreGroups, AreAll, touch_cmp, pairs_at};
ghost use Rattle.px_flow_points.specs.Order.{put_all};
ghost use Rattle.std.specs.List.Sorted.{IsStrictlySortedBy};

use crate::part::Pair;
use sqlite_items::Items;
use std::alloc::{AllocError, Global};
use std::collections::{BTreeSet, HashMap};
use std::marker::Model;

/// A statement, by its node, and a pair that it reads, or one that it writes.
#[derive(Clone, Copy, Debug, PartialEq, Eq, PartialOrd, Ord)]
pub struct Touch {
    pub node: u32,
    pub pair: Pair,
}

/// Pairs by nodes, each list in rising order.
#[derive(Drop)]
pub struct Pairs {
    all: Vec<Touch>,
    by_node: HashMap<u32, Items<Pair>>,
}

impl Model for Pairs {
    ghost use Rattle.std.specs.Prelude.{List};
    ghost use Rattle.px_flow_points.specs.declared.pairs.Touch.{Touch};
    ghost use Rattle.px_flow_points.specs.ByNode.{AreGroups};

    ghost Value = { List Touch };

    ghost view = { λ pairs. pairs.all.items };

    ghost invariant = { λ pairs. AreGroups pairs.by_node pairs.all.items };
}

fn set_of(alloc: Global, touches: &[Touch]) -> Result<BTreeSet<Touch>, AllocError>
    ensures { IfOk result (λ set. set.keys ≡ put_all touch_cmp [] touches.now) }
{
    let mut set = BTreeSet::new(alloc);
    for touch in touches {
        set.insert(*touch)?;
    }
    Ok(set)
}

fn list_of(alloc: Global, set: BTreeSet<Touch>) -> Result<Vec<Touch>, AllocError>
    ensures same { IfOk result (λ all. all.items ≡ set.keys) }
    ensures rise { IfOk result (λ all. IsStrictlySortedBy touch_cmp all.items) }
{
    let mut all = Vec::new(alloc);
    for touch in set {
        all.push(touch)?;
    }
    Ok(all)
}

fn ordered(alloc: Global, touches: &[Touch]) -> Result<Vec<Touch>, AllocError>
    ensures { IfOk result (λ all. AreAll touches.now all.items) }
{
    let set = set_of(alloc, touches)?;
    let all = list_of(alloc, set)?;
    Ok(all)
}

fn grouped(alloc: Global, touches: &[Touch]) -> Result<HashMap<u32, Items<Pair>>, AllocError>
    ensures { IfOk result (λ groups. AreGroups groups touches.now) }
{
    let mut groups = HashMap::new(alloc);
    for touch in touches {
        let mut group = groups.remove(&touch.node).unwrap_or(Items::new(alloc));
        group.push(touch.pair)?;
        groups.insert(touch.node, group)?;
    }
    Ok(groups)
}

impl Pairs {
    pub fn new(alloc: Global, touches: &[Touch]) -> Result<Pairs, AllocError>
        ensures { IfOk result (λ pairs. AreAll touches.now pairs) }
    {
        let all = ordered(alloc, touches)?;
        let by_node = grouped(alloc, all.as_slice())?;
        Ok(Pairs { all, by_node })
    }

    pub fn as_slice(&self) -> &[Touch]
        ensures { result.now ≡ self.now }
    {
        self.all.as_slice()
    }

    pub fn at(&self, node: u32) -> &[Pair]
        ensures { result.now ≡ pairs_at node self.now }
    {
        match self.by_node.get(&node) {
            Some(pairs) => pairs.as_slice(),
            None => &[],
        }
    }
}
