//! Rows, and their keys for look-up.

ghost use Rattle.std.specs.Prelude.{◌≡◌, ◌==◌, ◌&&◌, ◌||◌, [], ◌∷◌, ◌++◌, ℕ, ℤ, List, Vec, false, length, OnOk, IfOk};
ghost use Rattle.std.specs.Ordering.{int_eq};
ghost use Rattle.std.specs.Str.{bytes_eq};
ghost use Rattle.std.specs.declared.alloc.Global.{Global};
ghost use Rattle.px_job.specs.Rows.{number_stands, text_stands, key_stands};
ghost use Rattle.px_job.specs.Keys.{has_number, has_text, AreNone, Adds, AreKeys};
ghost use Rattle.px_job.specs.declared.job.Row.{Row};

use crate::job::Row;
use px_value::Value;
use sqlite_items::Items;
use std::alloc::{AllocError, Global};
use std::collections::HashSet;
use std::marker::Model;
use std::mem;

/// Keys of rows, beside their tables.
#[derive(Drop)]
struct Keys {
    numbers: HashSet<(u16, i64)>,
    texts: HashSet<(u16, Vec<u8>)>,
}

impl Keys {
    fn new(alloc: Global) -> Keys
        ensures { AreNone result.numbers result.texts }
    {
        Keys {
            numbers: HashSet::new(alloc),
            texts: HashSet::new(alloc),
        }
    }

    fn has(&self, alloc: Global, table: u16, values: &[Value]) -> Result<bool, AllocError>
        ensures { IfOk result (λ has. (rows : List Row) → AreKeys self.now.numbers self.now.texts rows → has ≡ key_stands rows table values.now) }
    {
        match values {
            [Value::Long(number), ..] => Ok(self.numbers.contains(&(table, *number))),
            [Value::Text(text), ..] => {
                let key = (table, Vec::from_slice(alloc, text.as_slice())?);
                Ok(self.texts.contains(&key))
            }
            _ => Ok(false),
        }
    }

    fn add(&mut self, alloc: Global, table: u16, values: &[Value]) -> Result<(), AllocError>
        ensures { OnOk result (Adds self.old.numbers self.old.texts self.new.numbers self.new.texts table values.now) }
    {
        match values {
            [Value::Long(number), ..] => add_number(&mut self.numbers, table, *number),
            [Value::Text(text), ..] => add_text(alloc, &mut self.texts, table, text.as_slice()),
            _ => Ok(()),
        }
    }
}

fn add_number(numbers: &mut HashSet<(u16, i64)>, table: u16, number: i64) -> Result<(), AllocError>
    ensures { OnOk result ((t : ℕ) (n : ℤ) → has_number numbers.new t n ≡ (has_number numbers.old t n || ((table == t) && int_eq number n))) }
{
    numbers.insert((table, number))?;
    Ok(())
}

fn add_text(
    alloc: Global,
    texts: &mut HashSet<(u16, Vec<u8>)>,
    table: u16,
    text: &[u8],
) -> Result<(), AllocError>
    ensures { OnOk result ((t : ℕ) (x : Vec ℕ Global) → has_text texts.new t x ≡ (has_text texts.old t x || ((table == t) && bytes_eq text.now x.items))) }
{
    let key = (table, Vec::from_slice(alloc, text)?);
    texts.insert(key)?;
    Ok(())
}

/// Rows, seen as their list.
#[derive(Drop)]
pub(crate) struct Rows {
    list: Items<Row>,
    keys: Keys,
}

impl Model for Rows {
    ghost use Rattle.std.specs.Prelude.{List};
    ghost use Rattle.px_job.specs.declared.job.Row.{Row};
    ghost use Rattle.px_job.specs.Keys.{AreKeys};

    ghost Value = { List Row };

    ghost view = { λ r. r.list };

    ghost invariant = { λ r. AreKeys r.keys.numbers r.keys.texts r.list };
}

impl Rows {
    pub(crate) fn new(alloc: Global) -> Rows
        ensures { result ≡ [] }
    {
        Rows {
            list: Items::new(alloc),
            keys: Keys::new(alloc),
        }
    }

    pub(crate) fn len(&self) -> usize
        ensures { result ≡ length self.now }
    {
        self.list.len()
    }

    pub(crate) fn into_items(self) -> Items<Row>
        ensures { result ≡ self }
    {
        self.list
    }

    /// Whether a row of the table has the key of the values.
    pub(crate) fn has_key(
        &self,
        alloc: Global,
        table: u16,
        values: &[Value],
    ) -> Result<bool, AllocError>
        ensures { IfOk result (λ has. has ≡ key_stands self.now table values.now) }
    {
        self.keys.has(alloc, table, values)
    }

    /// Where it fails, it leaves no rows.
    pub(crate) fn push(&mut self, alloc: Global, row: Row) -> Result<(), AllocError>
        ensures { OnOk result (self.new ≡ self.old ++ row ∷ []) }
    {
        let rows = mem::replace(self, Rows::new(alloc));
        *self = rows.with(alloc, row)?;
        Ok(())
    }

    fn with(self, alloc: Global, row: Row) -> Result<Rows, AllocError>
        ensures { IfOk result (λ rows. rows ≡ self ++ row ∷ []) }
    {
        let Rows { mut list, mut keys } = self;
        keys.add(alloc, row.table, row.values.as_slice())?;
        list.push(row)?;
        Ok(Rows { list, keys })
    }
}
