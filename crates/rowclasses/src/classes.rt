//! Entry processors whose only method is `process`.

use crate::{Frames, Method, class_of, process};
use std::alloc::{AllocError, Global};

/// The code of `process` in Plus.
pub static PLUS: [u8; 30] = [
    0x2B, 0xB9, 0x00, 0x1A, 0x01, 0x00, 0xC0, 0x00, 0x12, 0xB6, 0x00, 0x25, 0x0A, 0x61, 0x42, 0x2B,
    0x21, 0xB8, 0x00, 0x29, 0xB9, 0x00, 0x1E, 0x02, 0x00, 0x21, 0xB8, 0x00, 0x29, 0xB0,
];

/// Returns the class file of Plus, an entry processor that adds 1 to the value of the entry and returns the sum.
pub fn plus(alloc: Global) -> Result<Vec<u8>, AllocError> {
    class_of(alloc, &[process(4, 5, &PLUS)])
}

static COUNTER: [u8; 56] = [
    0x2B, 0xB9, 0x00, 0x16, 0x01, 0x00, 0x99, 0x00, 0x12, 0x2B, 0xB9, 0x00, 0x1A, 0x01, 0x00, 0xC0,
    0x00, 0x12, 0xB6, 0x00, 0x25, 0xA7, 0x00, 0x04, 0x09, 0x42, 0x21, 0x2C, 0x03, 0x32, 0xC0, 0x00,
    0x12, 0xB6, 0x00, 0x25, 0x61, 0x37, 0x05, 0x2B, 0x16, 0x05, 0xB8, 0x00, 0x29, 0xB9, 0x00, 0x1E,
    0x02, 0x00, 0x16, 0x05, 0xB8, 0x00, 0x29, 0xB0,
];

static COUNTER_FRAMES: [u8; 3] = [0x18, 0x40, 0x04];

/// Returns the class file of Counter, an entry processor that adds its first argument to the value of the entry and returns the sum.
/// The value of an absent entry counts as 0.
pub fn counter(alloc: Global) -> Result<Vec<u8>, AllocError> {
    let method = Method {
        frames: Some(Frames {
            count: 2,
            entries: &COUNTER_FRAMES,
        }),
        ..process(4, 7, &COUNTER)
    };
    class_of(alloc, &[method])
}

static UNBOX: [u8; 16] = [
    0x2B, 0xB9, 0x00, 0x1A, 0x01, 0x00, 0xC0, 0x00, 0x12, 0xB6, 0x00, 0x25, 0xB8, 0x00, 0x29, 0xB0,
];

/// Returns the class file of Unbox, an entry processor that returns the value of the entry, unboxed and boxed again.
pub fn unbox(alloc: Global) -> Result<Vec<u8>, AllocError> {
    class_of(alloc, &[process(2, 3, &UNBOX)])
}

static SHIFT64: [u8; 8] = [0x0A, 0x10, 0x40, 0x79, 0xB8, 0x00, 0x29, 0xB0];

/// Returns the class file of an entry processor that returns the `long` 1 shifted left by 64.
pub fn shift64(alloc: Global) -> Result<Vec<u8>, AllocError> {
    class_of(alloc, &[process(3, 3, &SHIFT64)])
}

static MIXED: [u8; 2] = [0x09, 0xB0];

/// Returns a class file that is refused: `process` returns a `long` as a reference.
pub fn mixed(alloc: Global) -> Result<Vec<u8>, AllocError> {
    class_of(alloc, &[process(2, 3, &MIXED)])
}

static FALLS: [u8; 1] = [0x00];

/// Returns a class file that is refused: the code of `process` ends without a return.
pub fn falls(alloc: Global) -> Result<Vec<u8>, AllocError> {
    class_of(alloc, &[process(0, 3, &FALLS)])
}

static GIVE_ENTRY: [u8; 2] = [0x2B, 0xB0];

/// Returns the class file of an entry processor that returns the entry itself.
pub fn give_entry(alloc: Global) -> Result<Vec<u8>, AllocError> {
    give_entry_with_stack(alloc, 1)
}

/// Returns the same class file with this `max_stack`.
pub fn give_entry_with_stack(alloc: Global, max_stack: u16) -> Result<Vec<u8>, AllocError> {
    class_of(alloc, &[process(max_stack, 3, &GIVE_ENTRY)])
}
