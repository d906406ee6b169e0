//! A buffer of words that are appended, read and written in place.

ghost use Rattle.std.specs.Prelude.{◌≡◌, ◌+◌, ◌<◌, ◌≤◌, ◌++◌, [], length, replicate, IfOk, slice_index, slice_set};
ghost use Rattle.rawwords.specs.Row.{Row};

use crate::block::{Block, Deed, give_back, take, write_zeros};
use std::alloc::{AllocError, Global};
use std::marker::Model;

/// A buffer of words with a fixed capacity, allocated once.
///
/// The memory is not initialized when it is allocated: a word is first written when it is appended.
pub struct RawWords {
    block: Block,
    deed: Deed<Global>,
    alloc: Global,
    len: u32,
    capacity: u32,
}

impl Model for RawWords {
    ghost use Rattle.rawwords.specs.Row.{Row};

    ghost Value = { Row };

    ghost use Rattle.rawwords.specs.Kept.{row_in, IsKept};

    ghost view = { row_in };

    ghost invariant = { IsKept };
}

impl Drop for RawWords {
    fn drop(self) {
        let RawWords {
            block,
            deed,
            alloc,
            len: _,
            capacity,
        } = self;
        give_back(&alloc, block, deed, capacity as usize);
    }
}

impl RawWords {
    /// Returns an empty buffer with this capacity, or an error if memory is exhausted.
    pub fn new(alloc: Global, capacity: u32) -> Result<RawWords, AllocError>
        ensures { IfOk result (λ row. row ≡ record { items = []; capacity = capacity }) }
    {
        let (block, deed) = take(&alloc, capacity as usize)?;
        Ok(RawWords {
            block,
            deed,
            alloc,
            len: 0,
            capacity,
        })
    }

    /// Returns the number of words.
    #[inline]
    pub fn len(&self) -> u32
        ensures count { result ≡ length self.now.items }
        ensures room { result ≤ self.now.capacity }
    {
        self.len
    }

    /// Returns the capacity in words.
    #[inline]
    pub fn capacity(&self) -> u32
        ensures { result ≡ self.now.capacity }
    {
        self.capacity
    }

    /// Appends `n` zeros, which must fit the capacity.
    pub fn append_zeros(&mut self, n: u32)
        requires { length self.old.items + n ≤ self.old.capacity }
        ensures { self.new ≡ record self.old { items = self.old.items ++ replicate n 0 } }
    {
        write_zeros(&mut self.block, self.len as usize, n as usize);
        self.len += n;
    }

    /// Returns the word at an index.
    #[inline]
    pub fn get(&self, place: u32) -> u64
        requires { place < length self.now.items }
        ensures { result ≡ slice_index self.now.items place }
    {
        *self.block.word(place as usize)
    }

    /// Writes the word at an index.
    #[inline]
    pub fn set(&mut self, place: u32, word: u64)
        requires { place < length self.old.items }
        ensures { self.new ≡ record self.old { items = slice_set self.old.items place word } }
    {
        self.block.write(place as usize, word);
    }

    /// Removes all words and keeps the memory.
    pub fn clear(&mut self)
        ensures { self.new ≡ record self.old { items = [] } }
    {
        self.len = 0;
    }
}
