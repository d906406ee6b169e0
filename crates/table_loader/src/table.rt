//! A loader that returns values from a table.

ghost use Rattle.std.specs.Prelude.{◌≡◌, ◌≤◌, length, true, false, int_le};
ghost use Rattle.std.specs.Ordering.{int_cmp};
ghost use Rattle.std.specs.List.Sorted.{IsSortedByKey, IsPartitionPoint};
ghost use Rattle.table_loader.specs.Rows.{value_in};
ghost use Rattle.table_loader.specs.declared.table.Pair.{Pair};

use crate::file::rows_of;
use jtypes::{LoadFailed, Loader};
use std::alloc::{AllocError, Global};
use std::marker::Model;

/// A key and its value.
#[derive(Clone, Copy, PartialEq, Eq)]
pub struct Pair {
    pub key: i64,
    pub value: i64,
}

/// A table of pairs, in which the last of several pairs with the same key counts.
/// As a loader it returns the value of a key, or none if no pair has the key. It never fails.
#[derive(Drop)]
pub struct Table {
    /// Sorted by key. Pairs with equal keys keep the order in which they were given.
    rows: Vec<Pair>,
}

impl Model for Table {
    ghost use Rattle.std.specs.Prelude.{List};
    ghost use Rattle.std.specs.Ordering.{int_cmp};
    ghost use Rattle.std.specs.List.Sorted.{IsSortedByKey};
    ghost use Rattle.table_loader.specs.declared.table.Pair.{Pair};

    ghost Value = { List Pair };

    ghost view = { λ t. t.rows.items };

    ghost invariant = { λ t. IsSortedByKey (λ (p : Pair). p.key) int_cmp t.rows.items };
}

impl Table {
    ghost use Rattle.std.specs.Prelude.{◌≡◌, IfOk};
    ghost use Rattle.table_loader.specs.Rows.{value_in, HasValuesOf, IsRead};

    /// Returns a table of these pairs, or an error if there is no memory to sort them.
    pub fn of(rows: Vec<Pair>) -> Result<Table, AllocError>
        ensures { IfOk result (λ t. HasValuesOf rows.items t) }
    {
        let mut rows = rows;
        rows.sort_by_key(|row| row.key)?;
        Ok(Table { rows })
    }

    /// Reads a table from a file of 16-byte pairs: the key and then the value, each as 64-bit big-endian two's complement.
    /// Returns `None` if the bytes are not such pairs, or an error if memory is exhausted.
    pub fn read(alloc: Global, bytes: &[u8]) -> Result<Option<Table>, AllocError>
        ensures { IfOk result (IsRead bytes.now) }
    {
        match rows_of(alloc, bytes)? {
            Some(rows) => Ok(Some(Table::of(rows)?)),
            None => Ok(None),
        }
    }

    /// Returns the value of a key, or `None` if no pair has the key.
    pub fn find(&self, key: i64) -> Option<i64>
        ensures { result ≡ value_in self.now key }
    {
        find_in(&self.rows, key)
    }
}

/// Returns the number of pairs whose key is at most `key`.
fn count_to(rows: &[Pair], key: i64) -> usize
    requires { IsSortedByKey (λ (p : Pair). p.key) int_cmp rows.now }
    ensures bound { result ≤ length rows.now }
    ensures point { IsPartitionPoint (λ p. int_le p.key key ≡ true) (λ p. int_le p.key key ≡ false) rows.now result }
{
    rows.partition_point(
        |row: &Pair| -> bool
            ensures { result ≡ int_le row.now.key key }
        { row.key <= key },
    )
}

impl Pair {
    ghost use Rattle.std.specs.Prelude.{◌≡◌};
    ghost use Rattle.table_loader.specs.Rows.{value_of};

    /// Returns the value, if the pair has this key.
    fn value_of(&self, key: i64) -> Option<i64>
        ensures { result ≡ value_of self.now key }
    {
        if self.key == key {
            Some(self.value)
        } else {
            None
        }
    }
}

/// Returns the value of a key in sorted pairs, by binary search.
fn find_in(rows: &[Pair], key: i64) -> Option<i64>
    requires { IsSortedByKey (λ (p : Pair). p.key) int_cmp rows.now }
    ensures { result ≡ value_in rows.now key }
{
    let count = count_to(rows, key);
    if count == 0 {
        return None;
    }
    rows[count - 1].value_of(key)
}

impl Loader for Table {
    ghost use Rattle.std.specs.Prelude.{◌≡◌, true};
    ghost use Rattle.table_loader.specs.Rows.{value_in, answer_for};

    const ASKS: bool = true;

    ghost ASKS = { true };

    ghost gives = { λ t key a. a ≡ answer_for (value_in t key) };

    fn load(&self, key: i64) -> Result<Option<i64>, LoadFailed> {
        Ok(self.find(key))
    }
}
