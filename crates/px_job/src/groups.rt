//! Nodes by what they have in common.

ghost use Rattle.std.specs.Prelude.{◌≡◌, map, IfOk, None, if◌then◌else◌};
ghost use Rattle.px_job.specs.Prints.{is_print};
ghost use Rattle.px_job.specs.Groups.{line_by, key_of, keys_but_prints, numbers_at, AreGroups};

use crate::prints::Prints;
use px_normal::{Node, NodeKind};
use sqlite_items::Items;
use std::alloc::{AllocError, Global};
use std::collections::HashMap;
use std::marker::Model;

/// By what nodes are found.
#[derive(Clone, Copy)]
pub(crate) enum Key {
    /// The line of a statement or a site.
    Line,
    /// The method in which the node stands.
    Method,
    All,
}

fn line_of(kind: NodeKind, line: u32) -> Option<u64>
    ensures { result ≡ line_by kind line }
{
    match kind {
        NodeKind::Normal | NodeKind::Site => Some(line as u64),
        _ => None,
    }
}

fn key_of(key: Key, node: &Node) -> Option<u64>
    ensures { result ≡ key_of key node.now }
{
    match key {
        Key::Line => line_of(node.kind, node.line),
        Key::Method => match node.method {
            Some(method) => Some(method as u64),
            None => None,
        },
        Key::All => Some(0),
    }
}

/// By what each node is found.
pub(crate) fn keys_of(
    alloc: Global,
    key: Key,
    nodes: &[Node],
) -> Result<Items<Option<u64>>, AllocError>
    ensures { IfOk result (λ keys. keys ≡ map (key_of key) nodes.now) }
{
    let mut keys = Items::new(alloc);
    for node in nodes {
        keys.push(key_of(key, node))?;
    }
    Ok(keys)
}

/// The same, where prints are found by nothing.
pub(crate) fn keys_but_prints(
    alloc: Global,
    key: Key,
    prints: &Prints,
    nodes: &[Node],
) -> Result<Items<Option<u64>>, AllocError>
    ensures { IfOk result (λ keys. keys ≡ keys_but_prints key prints.now 1 nodes.now) }
{
    let mut keys = Items::new(alloc);
    let mut number = 0;
    for node in nodes {
        number += 1;
        keys.push(key_but_print(key, prints, number, node))?;
    }
    Ok(keys)
}

fn key_but_print(key: Key, prints: &Prints, number: usize, node: &Node) -> Option<u64>
    ensures { result ≡ (if is_print prints.now number then None else key_of key node.now) }
{
    if prints.has(number) {
        None
    } else {
        key_of(key, node)
    }
}

/// The numbers of nodes, found by their keys, and seen as the keys.
#[derive(Drop)]
pub(crate) struct Groups {
    keys: Items<Option<u64>>,
    numbers: HashMap<u64, Items<usize>>,
}

impl Model for Groups {
    ghost use Rattle.std.specs.Prelude.{List, ℕ, Option};
    ghost use Rattle.px_job.specs.Groups.{AreGroups};

    ghost Value = { List (Option ℕ) };

    ghost view = { λ g. g.keys };

    ghost invariant = { λ g. AreGroups g.numbers g.keys };
}

impl Groups {
    pub(crate) fn new(alloc: Global, keys: Items<Option<u64>>) -> Result<Groups, AllocError>
        ensures { IfOk result (λ groups. groups ≡ keys) }
    {
        let numbers = numbers_by(alloc, keys.as_slice())?;
        Ok(Groups { keys, numbers })
    }

    /// The numbers of the nodes that are found by a key.
    pub(crate) fn at(&self, key: u64) -> &[usize]
        ensures { result.now ≡ numbers_at key 1 self.now }
    {
        match self.numbers.get(&key) {
            Some(numbers) => numbers.as_slice(),
            None => &[],
        }
    }
}

fn numbers_by(alloc: Global, keys: &[Option<u64>]) -> Result<HashMap<u64, Items<usize>>, AllocError>
    ensures { IfOk result (λ groups. AreGroups groups keys.now) }
{
    let mut groups = HashMap::new(alloc);
    let mut number = 0;
    for key in keys {
        number += 1;
        if let Some(key) = key {
            let mut group = groups.remove(key).unwrap_or(Items::new(alloc));
            group.push(number)?;
            groups.insert(*key, group)?;
        }
    }
    Ok(groups)
}
