//! The memory block of a buffer of words. Only this file uses raw pointers.

ghost use Rattle.std.specs.Prelude.{◌≡◌, ℕ, ◌+◌, ◌*◌, ◌^◌, ◌<◌, ◌≤◌, ◌++◌, length, take, drop, replicate, List, Option, Some, None, IfOk, slice_set, slice_index_or};
ghost use base.Fml.{ftrue};
ghost use denote.RawPtr.{Ptr};
ghost use Rattle.rawwords.specs.Owned.{block_owned, block_lent, deed_owned};

use std::alloc::{AllocError, Allocator};
use std::marker::{Model, PhantomData, Send, Sync};

/// A block of words, each of which is written or uninitialized.
pub(crate) struct Block {
    at: *mut u64,
    ghost places: { List (Option ℕ) },
}

impl Model for Block {
    ghost also_owns = { λ b. block_owned b.at b.places };

    ghost also_shares = { λ b _ κ. block_lent b.at b.places κ };
}

unsafe impl Send for Block {}

unsafe impl Sync for Block {}

/// The right to deallocate a block of `count` words through its allocator. It has size zero.
pub(crate) struct Deed<A: Allocator> {
    of: PhantomData<A>,
    ghost at: { Ptr },
    ghost count: { ℕ },
    ghost alloc: { A },
}

impl<A: Allocator> Model for Deed<A> {
    ghost also_owns = { λ d. deed_owned (A.dealloc_token d.alloc) d.at d.count };

    ghost also_shares = { λ _ _ _. ftrue };
}

unsafe impl<A: Allocator + Send> Send for Deed<A> {}

// A `&` to a deed holds no resource.
unsafe impl<A: Allocator> Sync for Deed<A> {}

/// Allocates a block of `count` uninitialized words.
pub(crate) fn take<A: Allocator>(alloc: &A, count: usize) -> Result<(Block, Deed<A>), AllocError>
    requires { count * 8 < 2 ^ 63 }
    ensures { IfOk result (λ r. (r.0.places ≡ replicate count None) × (r.1.at ≡ r.0.at) × (r.1.count ≡ count) × (r.1.alloc ≡ alloc.now)) }
{
    match alloc.allocate(count * 8, 8) {
        Ok(start) => {
            let block = Block {
                at: start as *mut u64,
            };
            Ok((block, Deed { of: PhantomData }))
        }
        Err(error) => Err(error),
    }
}

/// Deallocates a block.
pub(crate) fn give_back<A: Allocator>(alloc: &A, block: Block, deed: Deed<A>, count: usize)
    requires { (length block.places ≡ count) × (deed.at ≡ block.at) × (deed.count ≡ count) × (deed.alloc ≡ alloc.now) × (count * 8 < 2 ^ 63) }
{
    let Block { at } = block;
    let Deed { of: _ } = deed;
    unsafe {
        alloc.deallocate(at as *mut u8, count * 8, 8);
    }
}

/// Writes `n` zeros from index `from` on.
pub(crate) fn write_zeros(block: &mut Block, from: usize, n: usize)
    requires { (from + n ≤ length block.old.places) × (length block.old.places < 2 ^ 32) }
    ensures at { block.new.at ≡ block.old.at }
    ensures places { block.new.places ≡ take from block.old.places ++ replicate n (Some 0) ++ drop (from + n) block.old.places }
{
    for place in from..from + n {
        block.write(place, 0);
    }
}

impl Block {
    /// Writes a word at an index.
    #[inline]
    pub(crate) fn write(&mut self, place: usize, word: u64)
        requires { (place < length self.old.places) × (length self.old.places < 2 ^ 32) }
        ensures { (self.new.at ≡ self.old.at) × (self.new.places ≡ slice_set self.old.places place (Some word)) }
    {
        unsafe { self.at.add(place).write(word) }
    }

    /// Returns the word at an index that was written.
    #[inline]
    pub(crate) fn word(&self, place: usize) -> &u64
        requires { ((w : ℕ) × (slice_index_or self.now.places place None ≡ Some w)) × (length self.now.places < 2 ^ 32) }
        ensures { slice_index_or self.now.places place None ≡ Some result.now }
    {
        unsafe { &*self.at.add(place) }
    }
}
