//! The types of a method's local variables.

ghost use Rattle.std.specs.Prelude.{◌≡◌, ◌<◌, ◌≤◌, ◌+◌, ◌^◌, ◌++◌, ◌∷◌, [], length, take, replicate, slice_get, slice_set, slice_index_or, IfOk, OnErr};
ghost use Rattle.jtypes.specs.declared.types.JType.TheVariants.{Top};
ghost use Rattle.locals.specs.Fits.{each_fits};
ghost use Rattle.locals.specs.Written.{written};

use crate::pages::{blank_pages, blank_row, find, has, own_numbers, page_with, rows_fit};
use jtypes::{Items, JType};
use std::alloc::{AllocError, Global};
use std::marker::Model;

/// The current types of a method's local variables, and numbered snapshots of them.
///
/// The types are stored in immutable pages, by page number: a change adds a page, and snapshots share the pages that they have
/// in common. So pages with the same number are equal.
#[derive(Drop)]
pub struct Locals {
    alloc: Global,
    pages: Vec<Items<JType>>,
    /// For each page, the number of a page whose types are known to be assignable to its types.
    fitting: Vec<usize>,
    kept: Vec<Items<usize>>,
    row: Vec<usize>,
}

impl Model for Locals {
    ghost use Rattle.std.specs.Prelude.{map};
    ghost use Rattle.locals.specs.Held.{Held, AreCut, AreFitting, row_of};

    ghost Value = { Held };

    ghost view = { λ l. record { row = row_of l.pages.items l.row.items; kept = map (row_of l.pages.items) l.kept.items } };

    ghost invariant = { λ l. AreCut l.pages.items l.kept.items l.row.items × AreFitting l.pages.items l.fitting.items };
}

impl Locals {
    /// Returns `count` local variables of type `Top`, without snapshots.
    pub fn new(alloc: Global, count: usize) -> Result<Locals, AllocError>
        ensures row { IfOk result (λ l. l.row ≡ replicate count Top) }
        ensures kept { IfOk result (λ l. l.kept ≡ []) }
    {
        let pages = blank_pages(alloc, count)?;
        let row = blank_row(alloc, count)?;
        let fitting = own_numbers(alloc, &pages)?;
        Ok(Locals {
            alloc,
            pages,
            fitting,
            kept: Vec::new(alloc),
            row,
        })
    }

    /// Returns the type of the local variable `n`, or `None` if `n` is out of range.
    pub fn get(&self, n: usize) -> Option<JType>
        ensures { result ≡ slice_get self.now.row n }
    {
        let (i, at) = find(&self.pages, &self.row, n)?;
        self.pages[self.row[i]].get(at)
    }

    /// Sets the type of the local variable `n`, which must exist. If memory runs out, no type changes.
    pub fn set(&mut self, n: usize, t: JType) -> Result<(), AllocError>
        requires { n < length self.old.row }
        ensures ok { IfOk result (λ _. self.new.row ≡ slice_set self.old.row n t) }
        ensures err { OnErr result (self.new.row ≡ self.old.row) }
        ensures kept { self.new.kept ≡ self.old.kept }
    {
        self.put_front(n, &[t])?;
        Ok(())
    }

    /// Sets the types from index `at` on, up to the end of the page of `at`. Returns how many it sets, at least 1.
    /// Adds no page if the page already has these types.
    fn put_front(&mut self, at: usize, types: &[JType]) -> Result<usize, AllocError>
        requires some { 0 < length types.now }
        requires there { at + length types.now ≤ length self.old.row }
        ensures some { IfOk result (λ n. (0 < n) × (n ≤ length types.now)) }
        ensures ok { IfOk result (λ n. self.new.row ≡ written self.old.row at (take n types.now)) }
        ensures err { OnErr result (self.new.row ≡ self.old.row) }
        ensures kept { self.new.kept ≡ self.old.kept }
    {
        let Some((i, from)) = find(&self.pages, &self.row, at) else {
            return Ok(types.len());
        };
        let page = self.pages[self.row[i]].as_slice();
        let count = types.len().min(page.len() - from);
        let front = &types[..count];
        if has(page, from, front) {
            return Ok(count);
        }
        let new = page_with(self.alloc, page, from, front)?;
        self.fitting.reserve(1)?;
        let number = self.pages.len();
        self.pages.push(new)?;
        self.fitting.push(number)?;
        self.row[i] = number;
        Ok(count)
    }

    /// Sets the types from index `at` on. If memory runs out, some of them may be set.
    pub fn put(&mut self, at: usize, types: &[JType]) -> Result<(), AllocError>
        requires there { at + length types.now ≤ length self.old.row }
        requires fits { at + length types.now < 2 ^ 64 }
        ensures ok { IfOk result (λ _. self.new.row ≡ written self.old.row at types.now) }
        ensures kept { self.new.kept ≡ self.old.kept }
    {
        let mut done = 0;
        while done < types.len() {
            done += self.put_front(at + done, &types[done..])?;
        }
        Ok(())
    }

    /// Adds a snapshot of the current types. Its number is the number of earlier snapshots.
    pub fn keep(&mut self) -> Result<(), AllocError>
        ensures row { self.new.row ≡ self.old.row }
        ensures ok { IfOk result (λ _. self.new.kept ≡ self.old.kept ++ self.old.row ∷ []) }
        ensures err { OnErr result (self.new.kept ≡ self.old.kept) }
    {
        let row = Items::from_slice(self.alloc, &self.row)?;
        self.kept.push(row)?;
        Ok(())
    }

    /// Returns the number of snapshots.
    pub fn kept_len(&self) -> usize
        ensures { result ≡ length self.now.kept }
    {
        self.kept.len()
    }

    /// Sets the current types to those of a snapshot.
    pub fn enter(&mut self, number: usize)
        requires { number < length self.old.kept }
        ensures row { self.new.row ≡ slice_index_or self.old.kept number [] }
        ensures kept { self.new.kept ≡ self.old.kept }
    {
        self.row.copy_from_slice(self.kept[number].as_slice());
    }

    /// Returns whether each current type is assignable to the type at its index in a snapshot.
    pub fn fits(&mut self, number: usize) -> bool
        requires { number < length self.old.kept }
        ensures fits { result ≡ each_fits self.old.row (slice_index_or self.old.kept number []) }
        ensures same { self.new ≡ self.old }
    {
        let declared = self.kept[number].as_slice();
        rows_fit(&self.pages, &mut self.fitting, &self.row, declared)
    }
}
