//! A stack of fixed capacity, which is preallocated.

ghost use Rattle.std.specs.Prelude.{◌≡◌, ◌<◌, ◌+◌, [], ◌∷◌, length, IfOk, MatchOption};

use std::alloc::{AllocError, Global};
use std::marker::Model;

/// The unused capacity after the last cell, in items; for `Caller` it is two cache lines.
/// The last cell is written most often, so it must not share a cache line with memory that another core uses.
const BEHIND: usize = 8;

/// A stack of fixed capacity. Its view is the items, the latest first, and the number of free cells.
/// The cells are filled from the last one down.
#[derive(Drop)]
pub struct Rows<T> {
    cells: Vec<T>,
    start: usize,
}

impl<T> Model for Rows<T> {
    ghost use Rattle.std.specs.Prelude.{List, ℕ, drop, length, ◌≤◌};

    ghost Value = { List T × ℕ };

    ghost view = { λ c. (drop c.start c.cells.items, c.start) };

    ghost invariant = { λ c. c.start ≤ length c.cells.items };
}

impl<T: Copy> Rows<T> {
    /// Returns an empty stack with `count` free cells, or an error if memory is exhausted.
    pub fn new(alloc: Global, blank: T, count: usize) -> Result<Rows<T>, AllocError>
        ensures { IfOk result (λ c. c ≡ ([], count)) }
    {
        let mut cells = vec![in alloc; blank; count]?;
        cells.reserve_exact(BEHIND)?;
        Ok(Rows {
            cells,
            start: count,
        })
    }

    /// Pushes an item. There must be a free cell.
    #[inline(always)]
    pub fn push(&mut self, item: T)
        requires { 0 < self.old.1 }
        ensures items { self.new.0 ≡ item ∷ self.old.0 }
        ensures left { self.new.1 + 1 ≡ self.old.1 }
    {
        self.start -= 1;
        self.cells[self.start] = item;
    }

    /// Pops the latest item, or returns `None` if there is none.
    #[inline(always)]
    pub fn pop(&mut self) -> Option<T>
        ensures items { MatchOption result ((self.old.0 ≡ []) × (self.new ≡ self.old)) (λ x. (self.old.0 ≡ x ∷ self.new.0) × (self.new.1 ≡ self.old.1 + 1)) }
    {
        if self.start == self.cells.len() {
            return None;
        }
        let item = self.cells[self.start];
        self.start += 1;
        Some(item)
    }

    /// Removes all items and keeps the cells.
    pub fn clear(&mut self)
        ensures items { self.new.0 ≡ [] }
        ensures left { self.new.1 ≡ length self.old.0 + self.old.1 }
    {
        self.start = self.cells.len();
    }
}
