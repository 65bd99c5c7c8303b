//! One table: its rows by their keys.
ghost use Rattle.std.specs.Prelude.{◌≡◌, map, IfOk};
ghost use Rattle.std.specs.Option.{option_copied, option_map};
ghost use Rattle.std.specs.FinMap as map_of;
ghost use Rattle.px_rows.specs.Tables.{put_row};

use crate::tree::{Node, Tree};
use px_value::Values;
use std::alloc::{AllocError, Global};
use std::marker::Model;

#[derive(Drop)]
pub struct Rows {
    tree: Tree,
}

impl Model for Rows {
    ghost use Rattle.std.specs.Coded.{coded_ℤ, coded_list};
    ghost use Rattle.std.specs.FinMap.{code, from_sorted};
    ghost use Rattle.px_rows.specs.Tables.{Table};
    ghost use Rattle.px_rows.specs.Entries.{IsSorted};
    ghost use Rattle.px_value.specs.contracts.value.Value as stored;

    ghost Value = { Table };

    ghost coded = { code coded_ℤ (coded_list stored.the_row.coded) };

    ghost view = { λ r. from_sorted r.tree };

    ghost invariant = { λ r. IsSorted r.tree };
}

impl Rows {
    pub fn new() -> Rows
        ensures { result ≡ map_of.empty }
    {
        Rows { tree: Tree::new() }
    }

    pub fn get(&self, key: i64) -> Option<&Values>
        ensures { option_copied result ≡ map_of.get self.now key }
    {
        self.tree.get(key)
    }

    /// Leaves the row, or none, at the key. What stood there comes back.
    pub fn set(&mut self, key: i64, node: Option<Box<Node>>) -> Option<Box<Node>>
        ensures old { option_map (λ n. n.value.row) result ≡ map_of.get self.old key }
        ensures new { self.new ≡ put_row key (option_map (λ n. n.value.row) node) self.old }
    {
        match node {
            Some(node) => self.tree.put(key, node),
            None => self.tree.take(key),
        }
    }

    /// The rows in order of the key.
    pub fn list(&self, alloc: Global) -> Result<Vec<&Values>, AllocError>
        ensures { IfOk result (λ rows. map (λ r. r.now) rows.items ≡ map_of.values self.now) }
    {
        let mut rows = Vec::new(alloc);
        self.tree.list(&mut rows)?;
        Ok(rows)
    }
}
