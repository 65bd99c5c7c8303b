//! A search tree of rows by their keys, in order of the rank of each key from the root down. It is seen as its entries in order of the key.
ghost use Rattle.std.specs.Prelude.{◌≡◌, ◌++◌, ◌∷◌, [], ℤ, List, map, OnOk};
ghost use Rattle.std.specs.Option.{option_copied, option_map};
ghost use Rattle.std.specs.Ordering.{int_cmp};
ghost use Rattle.std.specs.FinMap.{find, put as put_entry};
ghost use Rattle.px_rows.specs.Entries.{Entries, IsSorted, below, above, without, rows_in};

use crate::rank::rank;
use px_value::Values;
use std::alloc::AllocError;
use std::cmp::Ordering;
use std::marker::Model;
use std::mem;

#[cycle(tree)]
#[derive(Drop)]
pub struct Tree {
    root: Option<Box<Node>>,
}

#[cycle(tree)]
#[derive(Drop)]
pub struct Node {
    left: Tree,
    key: i64,
    pub row: Values,
    right: Tree,
}

impl Model for Tree {
    ghost use Rattle.std.specs.Prelude.{ℤ, List, length};
    ghost use Rattle.px_value.specs.declared.value.Value.{Value as ValueData};
    ghost use Rattle.px_rows.specs.Entries.{or_none, around};
    ghost use Rattle.std.specs.Option.{option_map};

    ghost Value = { List (ℤ × List ValueData) };

    ghost view = { λ t. or_none (option_map (λ n. around n.value.left n.value.key n.value.row n.value.right) t.root) };

    ghost size = { length };

    ghost use Rattle.std.proofs.Common.{arith, length-append};

    ghost size_decreases = { λ t h. Prim.grind (arith, length-append) };
}

/// A tree taken apart at a key.
#[derive(Drop)]
struct Parts {
    below: Tree,
    found: Option<Box<Node>>,
    above: Tree,
}

impl Node {
    /// A node that isn't in a tree yet.
    pub fn new(row: Values) -> Node
        ensures { result.row ≡ row }
    {
        Node {
            left: Tree::new(),
            key: 0,
            row,
            right: Tree::new(),
        }
    }
}

impl Tree {
    pub fn new() -> Tree
        ensures { result ≡ [] }
    {
        Tree { root: None }
    }

    pub fn get(&self, key: i64) -> Option<&Values>
        requires { IsSorted self.now }
        ensures { option_copied result ≡ find int_cmp key self.now }
    {
        match &self.root {
            None => None,
            Some(node) => match key.cmp(&node.key) {
                Ordering::Less => node.left.get(key),
                Ordering::Equal => Some(&node.row),
                Ordering::Greater => node.right.get(key),
            },
        }
    }

    /// The row that stood at the key.
    pub fn put(&mut self, key: i64, node: Box<Node>) -> Option<Box<Node>>
        requires { IsSorted self.old }
        ensures old { option_map (λ n. n.value.row) result ≡ find int_cmp key self.old }
        ensures new { self.new ≡ put_entry int_cmp key node.value.row self.old }
    {
        let parts = split(mem::replace(self, Tree::new()), key);
        *self = join(join(parts.below, alone(key, node)), parts.above);
        parts.found
    }

    /// Adds the rows in order of the key.
    pub fn list<'a>(&'a self, rows: &mut Vec<&'a Values>) -> Result<(), AllocError>
        ensures { OnOk result (map (λ r. r.now) rows.new.items ≡ map (λ r. r.now) rows.old.items ++ rows_in self.now) }
    {
        match &self.root {
            None => Ok(()),
            Some(node) => {
                node.left.list(rows)?;
                rows.push(&node.row)?;
                node.right.list(rows)
            }
        }
    }

    /// The row that stood at the key.
    pub fn take(&mut self, key: i64) -> Option<Box<Node>>
        requires { IsSorted self.old }
        ensures old { option_map (λ n. n.value.row) result ≡ find int_cmp key self.old }
        ensures new { self.new ≡ without key self.old }
    {
        let parts = split(mem::replace(self, Tree::new()), key);
        *self = join(parts.below, parts.above);
        parts.found
    }
}

fn alone(key: i64, mut node: Box<Node>) -> Tree
    ensures { result ≡ (key, node.value.row) ∷ [] }
{
    node.left = Tree::new();
    node.key = key;
    node.right = Tree::new();
    Tree { root: Some(node) }
}

fn split(tree: Tree, key: i64) -> Parts
    requires { IsSorted tree }
    ensures below { result.below ≡ below key tree }
    ensures found { option_map (λ n. n.value.row) result.found ≡ find int_cmp key tree }
    ensures above { result.above ≡ above key tree }
{
    match tree.root {
        None => Parts {
            below: Tree::new(),
            found: None,
            above: Tree::new(),
        },
        Some(mut node) => match key.cmp(&node.key) {
            Ordering::Less => {
                let parts = split(mem::replace(&mut node.left, Tree::new()), key);
                node.left = parts.above;
                Parts {
                    below: parts.below,
                    found: parts.found,
                    above: Tree { root: Some(node) },
                }
            }
            Ordering::Equal => {
                let below = mem::replace(&mut node.left, Tree::new());
                let above = mem::replace(&mut node.right, Tree::new());
                Parts {
                    below,
                    found: Some(node),
                    above,
                }
            }
            Ordering::Greater => {
                let parts = split(mem::replace(&mut node.right, Tree::new()), key);
                node.right = parts.below;
                Parts {
                    below: Tree { root: Some(node) },
                    found: parts.found,
                    above: parts.above,
                }
            }
        },
    }
}

fn join(left: Tree, right: Tree) -> Tree
    ensures { result ≡ left ++ right }
{
    match left.root {
        None => right,
        Some(mut l) => match right.root {
            None => Tree { root: Some(l) },
            Some(mut r) => {
                if rank(l.key) >= rank(r.key) {
                    let between = mem::replace(&mut l.right, Tree::new());
                    l.right = join(between, Tree { root: Some(r) });
                    Tree { root: Some(l) }
                } else {
                    let between = mem::replace(&mut r.left, Tree::new());
                    r.left = join(Tree { root: Some(l) }, between);
                    Tree { root: Some(r) }
                }
            }
        },
    }
}
