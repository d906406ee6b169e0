//! Readers that expose their buffered bytes.

ghost use Rattle.std.specs.Prelude.{◌≡◌, ◌≤◌, ℕ, List, length, take};
ghost use Rattle.std.specs.Io.KnownBytes.{Consumes};
ghost use Rattle.std.specs.Io.Buffered.{reader_buffer};

use std::alloc::Allocator;
use std::io;
use std::io::{BufRead, BufReader, Read};

/// A reader that may hold buffered bytes. A caller can parse them in the buffer, without a copy.
pub trait Ahead: Read {
    ghost ahead: { Self → List ℕ };

    /// Returns the buffered bytes. They are the next bytes of the input.
    fn at_hand(&self) -> &[u8]
        ensures { result.now ≡ ahead self.now };

    /// Consumes the first `count` buffered bytes, as a read does.
    /// At least `count` bytes must be buffered.
    fn pass(&mut self, count: usize)
        requires { count ≤ length (ahead self.old) }
        ensures { Consumes (Self.remaining self.old) (Self.remaining self.new) (take count (ahead self.old)) };
}

impl<R: Read, A: Allocator> Ahead for BufReader<R, A> {
    ghost ahead = { reader_buffer };

    fn at_hand(&self) -> &[u8] {
        self.buffer()
    }

    fn pass(&mut self, count: usize) {
        self.consume(count);
    }
}

impl<'a> Ahead for &'a [u8] {
    ghost ahead = { λ s. s.now };

    fn at_hand(&self) -> &[u8] {
        *self
    }

    fn pass(&mut self, count: usize) {
        *self = &self[count..];
    }
}

/// Wraps any reader and reports no buffered bytes.
#[derive(Drop)]
pub struct Plain<R> {
    pub inner: R,
}

impl<R: Read> Read for Plain<R> {
    ghost use Rattle.std.specs.Io.{ReadsAtMost};
    ghost use Rattle.std.specs.Io.KnownBytes.{ReadConsumes};

    ghost remaining = { λ p. R.remaining p.inner };

    fn read(&mut self, buf: &mut [u8]) -> io::Result<usize>
        ensures bound { ReadsAtMost result buf.new }
        ensures bytes { ReadConsumes (R.remaining self.old.inner) (R.remaining self.new.inner) result buf.new }
    {
        self.inner.read(buf)
    }
}

impl<R: Read> Ahead for Plain<R> {
    ghost use Rattle.std.specs.Prelude.{[]};

    ghost ahead = { λ _. [] };

    fn at_hand(&self) -> &[u8] {
        &[]
    }

    fn pass(&mut self, _count: usize) {}
}
