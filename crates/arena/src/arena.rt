//! The arrays of one invocation, in preallocated memory.

ghost use Rattle.std.specs.Prelude.{◌≡◌, ◌+◌, ◌<◌, ◌∷◌, ◌++◌, [], ◌↔◌, ℕ, ℤ, length, IsErr, IfOk, OnOk, OnErr, is_some, Some, slice_get, if◌then◌else◌};
ghost use Rattle.std.specs.Option.{ok_or};
ghost use Rattle.jtypes.specs.declared.types.JavaFault.TheVariants.{ArrayIndexOutOfBounds};
ghost use Rattle.jtypes.specs.Lists.{change};
ghost use Rattle.jtypes.specs.Values.{Array, new_array, words_of, item_at};
ghost use Rattle.arena.specs.Held.{Held, words_taken, with_element};
ghost use Rattle.arena.specs.Placing.{place_of, element_place, IsArrayAt, AtArray, FitsElement};

use crate::header::{header_of, kind_in, length_in, unsigned};
use jtypes::{ArrayId, ArrayKind, JavaFault};
use rawwords::RawWords;
use std::alloc::{AllocError, Global};
use std::marker::Model;

/// The error of an array that does not fit the free words.
#[derive(Clone, Copy, Debug, PartialEq, Eq)]
pub struct WordsFull;

/// The arrays of one invocation, which are freed together.
///
/// The number of words is a limit of this project: an array has one word for its header and one for each element.
/// Only `new` allocates memory.
/// An array's id is the index of its first word, and is valid until the next `reset`.
#[derive(Drop)]
pub struct Arena {
    words: RawWords,
}

impl Model for Arena {
    ghost use Rattle.arena.specs.Held.{Held};

    ghost Value = { Held };

    ghost use Rattle.arena.specs.Stored.{held_in, IsStored};

    ghost view = { held_in };

    ghost invariant = { IsStored };
}

impl Arena {
    /// Returns an empty arena with `words` free words, or an error if memory is exhausted.
    pub fn new(alloc: Global, words: u32) -> Result<Arena, AllocError>
        ensures { IfOk result (λ arena. arena ≡ record { arrays = []; words_left = words }) }
    {
        let words = RawWords::new(alloc, words)?;
        Ok(Arena { words })
    }

    /// Allocates an array of zeros (JVMS §6.5, `newarray`), and returns the index of its first word.
    ///
    /// It fails exactly if its `n + 1` words do not fit the free words.
    pub fn alloc(&mut self, kind: ArrayKind, n: u32) -> Result<ArrayId, WordsFull>
        ensures refused { IsErr result ↔ (self.old.words_left < words_of n) }
        ensures id { IfOk result (λ id. id ≡ place_of self.new.arrays (length self.old.arrays)) }
        ensures stands { IfOk result (λ id. IsArrayAt self.new.arrays (length self.old.arrays) id) }
        ensures arrays { OnOk result (self.new.arrays ≡ self.old.arrays ++ new_array kind n ∷ []) }
        ensures words { OnOk result (self.new.words_left + words_of n ≡ self.old.words_left) }
        ensures err { OnErr result (self.new ≡ self.old) }
    {
        let id = self.words.len();
        if n >= self.words.capacity() - id {
            return Err(WordsFull);
        }
        self.words.append_zeros(n + 1);
        self.words.set(id, header_of(kind, n));
        Ok(id)
    }

    /// Returns the element at an index, or the exception of an index out of bounds (JVMS §6.5, `iaload` and `laload`).
    #[inline]
    pub fn get(&self, id: ArrayId, index: i32) -> Result<i64, JavaFault>
        requires { (k : ℕ) × IsArrayAt self.now.arrays k id }
        ensures item { AtArray self.now.arrays id
            (λ k a. result ≡ ok_or (item_at a.items index) ArrayIndexOutOfBounds) }
        ensures element { AtArray self.now.arrays id (λ k a. (n : ℤ) → result ≡ Ok n → FitsElement a.kind n) }
    {
        match self.element_place(id, index) {
            Some(place) => Ok(self.words.get(place).cast_signed()),
            None => Err(JavaFault::ArrayIndexOutOfBounds),
        }
    }

    /// Writes the element at an index, or returns the exception of an index out of bounds (JVMS §6.5, `iastore` and `lastore`).
    #[inline]
    pub fn set(&mut self, id: ArrayId, index: i32, value: i64) -> Result<(), JavaFault>
        requires { (k : ℕ) × (a : Array) × IsArrayAt self.old.arrays k id × (slice_get self.old.arrays k ≡ Some a) × FitsElement a.kind value }
        ensures answer { AtArray self.old.arrays id
            (λ k a. result ≡ (if is_some (item_at a.items index) then Ok tt else Err ArrayIndexOutOfBounds)) }
        ensures count { length self.new.arrays ≡ length self.old.arrays }
        ensures ok { AtArray self.old.arrays id
            (λ k a. OnOk result (self.new.arrays ≡ change (with_element index value) self.old.arrays k)) }
        ensures err { OnErr result (self.new ≡ self.old) }
        ensures words { self.new.words_left ≡ self.old.words_left }
    {
        match self.element_place(id, index) {
            Some(place) => {
                self.words.set(place, value.cast_unsigned());
                Ok(())
            }
            None => Err(JavaFault::ArrayIndexOutOfBounds),
        }
    }

    /// Returns the word index of an element, or `None` if the element's index is out of bounds.
    #[inline]
    fn element_place(&self, id: ArrayId, index: i32) -> Option<u32>
        requires { (k : ℕ) × IsArrayAt self.now.arrays k id }
        ensures { AtArray self.now.arrays id (λ k a. result ≡ element_place id a index) }
    {
        let index = unsigned(index);
        if index < length_in(self.words.get(id)) {
            Some(id + 1 + index as u32)
        } else {
            None
        }
    }

    /// Returns the number of elements of an array (JVMS §6.5, `arraylength`).
    #[inline]
    pub fn length(&self, id: ArrayId) -> u32
        requires { (k : ℕ) × IsArrayAt self.now.arrays k id }
        ensures count { AtArray self.now.arrays id (λ k a. result ≡ length a.items) }
        ensures below { result < words_taken self.now.arrays }
    {
        length_in(self.words.get(id)) as u32
    }

    /// Returns the element type of an array: int or long.
    #[inline]
    pub fn kind(&self, id: ArrayId) -> ArrayKind
        requires { (k : ℕ) × IsArrayAt self.now.arrays k id }
        ensures { AtArray self.now.arrays id (λ k a. result ≡ a.kind) }
    {
        kind_in(self.words.get(id))
    }

    /// Returns the number of free words.
    pub fn words_left(&self) -> u32
        ensures { result ≡ self.now.words_left }
    {
        self.words.capacity() - self.words.len()
    }

    /// Frees all arrays and keeps the memory, so that all words are free again.
    pub fn reset(&mut self)
        ensures arrays { self.new.arrays ≡ [] }
        ensures words { self.new.words_left ≡ self.old.words_left + words_taken self.old.arrays }
    {
        self.words.clear();
    }
}
