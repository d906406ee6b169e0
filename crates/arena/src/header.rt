//! The header word of an array, and the unsigned form of an element index.

ghost use Rattle.std.specs.Prelude.{◌≡◌, ◌^◌, ◌<◌};
ghost use Rattle.std.specs.Int.{w64, cast_unsigned};
ghost use Rattle.arena.specs.Stored.{header_of, length_in, kind_in};

use jtypes::ArrayKind;

/// Returns the header of an array of this kind with `n` elements.
#[inline]
pub fn header_of(kind: ArrayKind, n: u32) -> u64
    ensures { result ≡ header_of kind n }
{
    match kind {
        ArrayKind::Int => u64::from(n) * 2,
        ArrayKind::Long => u64::from(n) * 2 + 1,
    }
}

/// Returns the number of elements from a header.
#[inline]
pub fn length_in(header: u64) -> u64
    ensures { result ≡ length_in header }
{
    header / 2
}

/// Returns the element type from a header.
#[inline]
pub fn kind_in(header: u64) -> ArrayKind
    ensures { result ≡ kind_in header }
{
    if header % 2 == 0 {
        ArrayKind::Int
    } else {
        ArrayKind::Long
    }
}

/// Returns an index as unsigned, so that a negative one exceeds every array length.
#[inline]
pub fn unsigned(index: i32) -> u64
    ensures { result ≡ cast_unsigned w64 index }
{
    i64::from(index).cast_unsigned()
}
