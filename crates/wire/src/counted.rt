//! A reader or writer that counts its failed calls.

use crate::ahead::Ahead;
use std::io;
use std::io::{Read, Write};
use std::marker::Model;

/// Wraps a reader or writer and counts the calls that return an error of any kind, and the writes that accept no byte.
#[derive(Drop)]
pub struct Counted<T> {
    inner: T,
    failures: u64,
    idle: u64,
}

impl<T> Model for Counted<T> {
    ghost use Rattle.wire.specs.Counting.{Counting};

    ghost Value = { Counting T };

    ghost view = { λ c. record { inner = c.inner; failures = c.failures; idle = c.idle } };
}

impl<T> Counted<T> {
    ghost use Rattle.std.specs.Prelude.{◌≡◌};
    ghost use Rattle.wire.specs.Counting.{CountsFailure};

    /// Wraps `inner`, with both counts at 0.
    pub fn new(inner: T) -> Counted<T>
        ensures inner { result.inner ≡ inner }
        ensures none { (result.failures ≡ 0) × (result.idle ≡ 0) }
    {
        Counted {
            inner,
            failures: 0,
            idle: 0,
        }
    }

    /// Returns the number of calls that returned an error, saturated at `u64::MAX`.
    pub fn failures(&self) -> u64
        ensures { result ≡ self.now.failures }
    {
        self.failures
    }

    /// Returns the number of writes that accepted no byte of a nonempty buffer, saturated at `u64::MAX`.
    pub fn idle(&self) -> u64
        ensures { result ≡ self.now.idle }
    {
        self.idle
    }

    fn count_failure(&mut self)
        ensures inner { self.new.inner ≡ self.old.inner }
        ensures counted { CountsFailure self.old self.new }
    {
        self.failures = self.failures.saturating_add(1);
    }

    /// Returns the wrapped reader or writer.
    pub fn into_inner(self) -> T
        ensures { result ≡ self.inner }
    {
        self.inner
    }
}

impl<T: Read> Read for Counted<T> {
    ghost use Rattle.std.specs.Prelude.{OnOk, OnErr};
    ghost use Rattle.std.specs.Io.{ReadsAtMost};
    ghost use Rattle.std.specs.Io.KnownBytes.{ReadConsumes};
    ghost use Rattle.wire.specs.Counting.{CountsFailure, StaysCounted};

    ghost remaining = { λ c. T.remaining c.inner };

    fn read(&mut self, buf: &mut [u8]) -> io::Result<usize>
        ensures bound { ReadsAtMost result buf.new }
        ensures bytes { ReadConsumes (T.remaining self.old.inner) (T.remaining self.new.inner) result buf.new }
        ensures counted { OnErr result (CountsFailure self.old self.new) }
        ensures kept { OnOk result (StaysCounted self.old self.new) }
    {
        match self.inner.read(buf) {
            Ok(n) => Ok(n),
            Err(e) => {
                self.count_failure();
                Err(e)
            }
        }
    }
}

impl<T: Ahead> Ahead for Counted<T> {
    ghost use Rattle.std.specs.Prelude.{◌≤◌, length, take};
    ghost use Rattle.std.specs.Io.KnownBytes.{Consumes};
    ghost use Rattle.wire.specs.Counting.{StaysCounted};

    ghost ahead = { λ c. T.ahead c.inner };

    fn at_hand(&self) -> &[u8] {
        self.inner.at_hand()
    }

    fn pass(&mut self, count: usize)
        requires { count ≤ length (T.ahead self.old.inner) }
        ensures bytes { Consumes (T.remaining self.old.inner) (T.remaining self.new.inner) (take count (T.ahead self.old.inner)) }
        ensures kept { StaysCounted self.old self.new }
    {
        self.inner.pass(count);
    }
}

impl<T: Write> Write for Counted<T> {
    ghost use Rattle.std.specs.Prelude.{◌≡◌, ◌⊎◌, ◌<◌, length, IfOk, OnOk, OnErr};
    ghost use Rattle.std.specs.Io.{WritesAtMost};
    ghost use Rattle.std.specs.Io.KnownBytes.{WriteAppends, Keeps};
    ghost use Rattle.wire.specs.Counting.{CountsFailure, CountsIdle, StaysCounted};

    ghost contents = { λ c. T.contents c.inner };

    fn write(&mut self, buf: &[u8]) -> io::Result<usize>
        ensures bound { WritesAtMost result buf.now }
        ensures bytes { WriteAppends (T.contents self.old.inner) (T.contents self.new.inner) result buf.now }
        ensures counted { OnErr result (CountsFailure self.old self.new) }
        ensures idle { IfOk result (λ n. n ≡ 0 → 0 < length buf.now → CountsIdle self.old self.new) }
        ensures kept { IfOk result (λ n. (0 < n) ⊎ (length buf.now ≡ 0) → StaysCounted self.old self.new) }
    {
        match self.inner.write(buf) {
            Ok(n) => {
                if n == 0 && !buf.is_empty() {
                    self.idle = self.idle.saturating_add(1);
                }
                Ok(n)
            }
            Err(e) => {
                self.count_failure();
                Err(e)
            }
        }
    }

    fn flush(&mut self) -> io::Result<()>
        ensures bytes { Keeps (T.contents self.old.inner) (T.contents self.new.inner) }
        ensures counted { OnErr result (CountsFailure self.old self.new) }
        ensures kept { OnOk result (StaysCounted self.old self.new) }
    {
        match self.inner.flush() {
            Ok(()) => Ok(()),
            Err(e) => {
                self.count_failure();
                Err(e)
            }
        }
    }
}
