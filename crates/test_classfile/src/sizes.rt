//! The sizes in bytes of the class files of `rowclasses`, computed from the class file layout.

use rowclasses::*;
use std::alloc::{AllocError, Global};

/// Returns the size of a class file in bytes, `None` when out of memory.
fn size(class: Result<Vec<u8>, AllocError>) -> Option<usize> {
    match class {
        Ok(bytes) => Some(bytes.len()),
        Err(_) => None,
    }
}

#[test]
fn classes_have_their_sizes(rt: HostRuntime) {
    let alloc = rt.alloc();
    assert!(rt; size(class_of(alloc, &[])) == Some(671));
    assert!(rt; size(plus(alloc)) == Some(671 + 26 + 30));
    assert!(rt; size(counter(alloc)) == Some(764));
    assert!(rt; size(unbox(alloc)) == Some(671 + 26 + 16));
    assert!(rt; size(shift64(alloc)) == Some(671 + 26 + 8));
    assert!(rt; size(mixed(alloc)) == Some(671 + 26 + 2));
    assert!(rt; size(falls(alloc)) == Some(671 + 26 + 1));
    assert!(rt; size(give_entry(alloc)) == Some(671 + 26 + 2));
    assert!(rt; size(give_entry_with_stack(alloc, 8)) == Some(671 + 26 + 2));
}

/// Returns the size in bytes of the class file with this name, 0 if there is none; `None` when out of memory.
fn size_of(alloc: Global, name: &str) -> Option<usize> {
    match class_named(alloc, name) {
        Ok(Some(bytes)) => Some(bytes.len()),
        Ok(None) => Some(0),
        Err(_) => None,
    }
}

#[test]
fn further_classes_have_their_sizes(rt: HostRuntime) {
    let alloc = rt.alloc();
    for (name, size) in [
        ("NestFault", 671 + 26 + 20 + 26 + 4),
        ("Bridge", 671 + 26 + 5 + 26 + 7),
        ("Circle", 671 + 26 + 2 + 2 * (26 + 5)),
        ("Ratio", 671 + 26 + 28 + 8 + 4),
        ("SelfGoto", 671 + 26 + 3 + 8 + 1),
        ("CallArr", 671 + 26 + 8 + 26 + 7),
        ("None", 0),
    ] {
        assert!(rt; size_of(alloc, name) == Some(size), "{name}");
    }
}

#[test]
fn families_have_their_sizes(rt: HostRuntime) {
    let alloc = rt.alloc();
    assert!(rt; size(diamond(alloc, 3)) == Some(671 + 26 + 17 + 8 + 3));
    // The three constant pool entries of each of the two methods have 5 bytes each.
    assert!(rt; size(line_of(alloc, 2, 1)) == Some(671 + 26 + 5 + 2 * 15 + 26 + 4 + 26 + 1));
}
