//! Buffers of fixed size for short texts.

ghost use Rattle.std.specs.Prelude.{◌≡◌, ◌+◌, ◌<◌, ◌≤◌, [], ◌∷◌, ◌++◌, length};
ghost use Rattle.byteorder.specs.Endian.{big_bytes};
ghost use Rattle.wire.specs.Frames.{long_text, int_text, frame};

use byteorder::{BigEndian, ByteOrder};
use std::marker::Model;

/// The size of the length field before a text, in bytes.
const HEAD: usize = 4;

/// A text of at most 18 bytes, the length of a key and its outcome. It grows at its end.
/// The array reserves the first 4 bytes for the length field.
#[derive(Drop)]
pub struct Text {
    bytes: [u8; 22],
    end: usize,
}

impl Model for Text {
    ghost use Rattle.std.specs.Prelude.{List, ℕ, ◌≤◌, take, drop};

    ghost Value = { List ℕ };

    ghost view = { λ t. drop 4 (take t.end t.bytes) };

    ghost invariant = { λ t. (4 ≤ t.end) × (t.end ≤ 22) };
}

/// A text with its length field in front.
#[derive(Drop)]
pub struct Framed {
    bytes: [u8; 22],
    end: usize,
}

impl Model for Framed {
    ghost use Rattle.std.specs.Prelude.{List, ℕ, ◌≤◌, take};

    ghost Value = { List ℕ };

    ghost view = { λ t. take t.end t.bytes };

    ghost invariant = { λ t. t.end ≤ 22 };
}

impl Framed {
    pub fn as_slice(&self) -> &[u8]
        ensures { result.now ≡ self.now }
    {
        &self.bytes[..self.end]
    }
}

impl Text {
    pub fn new() -> Text
        ensures { result ≡ [] }
    {
        Text {
            bytes: [0; 22],
            end: HEAD,
        }
    }

    pub fn byte(&mut self, n: u8)
        requires { length self.old < 18 }
        ensures { self.new ≡ self.old ++ n ∷ [] }
    {
        self.bytes[self.end] = n;
        self.end += 1;
    }

    pub fn u16(&mut self, n: u16)
        requires { length self.old + 2 ≤ 18 }
        ensures { self.new ≡ self.old ++ big_bytes 2 n }
    {
        BigEndian::write_u16(&mut self.bytes[self.end..], n);
        self.end += 2;
    }

    pub fn u32(&mut self, n: u32)
        requires { length self.old + 4 ≤ 18 }
        ensures { self.new ≡ self.old ++ big_bytes 4 n }
    {
        BigEndian::write_u32(&mut self.bytes[self.end..], n);
        self.end += 4;
    }

    fn u64(&mut self, n: u64)
        requires { length self.old + 8 ≤ 18 }
        ensures { self.new ≡ self.old ++ big_bytes 8 n }
    {
        BigEndian::write_u64(&mut self.bytes[self.end..], n);
        self.end += 8;
    }

    pub fn int(&mut self, n: i32)
        requires { length self.old + 4 ≤ 18 }
        ensures { self.new ≡ self.old ++ int_text n }
    {
        self.u32(n.cast_unsigned());
    }

    pub fn long(&mut self, n: i64)
        requires { length self.old + 8 ≤ 18 }
        ensures { self.new ≡ self.old ++ long_text n }
    {
        self.u64(n.cast_unsigned());
    }

    /// Returns the length in bytes, at most 18.
    pub fn len(&self) -> u32
        ensures len { result ≡ length self.now }
        ensures small { result ≤ 18 }
    {
        (self.end - HEAD) as u32
    }

    pub fn as_slice(&self) -> &[u8]
        ensures bytes { result.now ≡ self.now }
        ensures small { length self.now ≤ 18 }
    {
        &self.bytes[HEAD..self.end]
    }

    /// Returns the text with its length field in front.
    pub fn framed(self) -> Framed
        ensures { result ≡ frame self }
    {
        let length = self.len();
        let Text { mut bytes, end } = self;
        BigEndian::write_u32(&mut bytes, length);
        Framed { bytes, end }
    }
}
