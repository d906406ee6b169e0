//! Classes with a given number of methods or branches.

use crate::{CONSTRUCTOR, Constant, Frames, Method, bytes_of, class_of, process};
use std::alloc::{AllocError, Global};

/// Returns the index of the `Methodref` of a method, numbered from 0: each method adds three entries after the 54 common indexes.
fn reference_of(number: u16) -> u16 {
    number.saturating_mul(3).saturating_add(57)
}

/// Returns the code of a method: `calls` invocations of the next method, none in the last method, and a `return`.
fn code_of(alloc: Global, number: u16, count: u16, calls: u16) -> Result<Vec<u8>, AllocError> {
    let mut code = Vec::new(alloc);
    let next = number.saturating_add(1);
    if next < count {
        let [high, low] = reference_of(next).to_be_bytes();
        for _ in 0..calls {
            code.extend_from_slice(&[0xB8, high, low])?;
        }
    }
    code.push(0xB1)?;
    Ok(code)
}

/// Returns the entries of `count` methods: for each its name, its `NameAndType` and its `Methodref`.
fn constants_of(alloc: Global, count: u16) -> Result<Vec<Constant>, AllocError> {
    let mut constants = Vec::new(alloc);
    for number in 0..count {
        let reference = reference_of(number);
        constants.push(Constant::Numbered(number))?;
        constants.push(Constant::NameAndType(reference.saturating_sub(2), 8))?;
        constants.push(Constant::Methodref(2, reference.saturating_sub(1)))?;
    }
    Ok(constants)
}

/// Returns a class whose `process` calls the first of `count` static methods, each of which calls the next one `calls` times.
pub fn line_of(alloc: Global, count: u16, calls: u16) -> Result<Vec<u8>, AllocError> {
    let mut codes = Vec::new(alloc);
    for number in 0..count {
        codes.push(code_of(alloc, number, count, calls)?)?;
    }
    let constants = constants_of(alloc, count)?;
    let mut methods = Vec::new(alloc);
    methods.push(process(1, 3, &[0xB8, 0, 57, 0x01, 0xB0]))?;
    for (number, code) in (0u16..).zip(&codes) {
        methods.push(Method {
            flags: 0x0008,
            name: reference_of(number).saturating_sub(2),
            descriptor: 8,
            max_stack: 0,
            max_locals: 0,
            code,
            exceptions: &[],
            frames: None,
        })?;
    }
    bytes_of(alloc, &constants, &CONSTRUCTOR, &methods)
}

/// Returns a class whose `process` has `count` branches, each over one `nop`.
pub fn diamond(alloc: Global, count: u16) -> Result<Vec<u8>, AllocError> {
    let mut code = Vec::new(alloc);
    let mut entries = Vec::new(alloc);
    for number in 0..count {
        code.extend_from_slice(&[0x03, 0x99, 0, 4, 0])?;
        entries.push(if number == 0 { 5 } else { 4 })?;
    }
    code.extend_from_slice(&[0x01, 0xB0])?;
    let method = Method {
        frames: Some(Frames {
            count,
            entries: &entries,
        }),
        ..process(1, 3, &code)
    };
    class_of(alloc, &[method])
}
