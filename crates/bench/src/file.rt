//! Reading of the class file.

use crate::report::Failure;
use std::alloc::Global;
use std::fs::OpenOptions;
use std::io::{ErrorKind, Read};
use std::rt::Files;

/// The number of bytes at which reading stops: one more than a class file may have.
const MOST: usize = 65_537;

/// Returns the bytes of a file, or of a longer one at least `MOST` bytes.
pub fn read_class(rt: &impl Files, alloc: Global, name: &str) -> Result<Vec<u8>, Failure> {
    let Ok(mut file) = OpenOptions::new().read(true).open(rt, name) else {
        return Err(Failure::CannotRead);
    };
    let mut bytes = Vec::new(alloc);
    let mut buffer = [0u8; 4096];
    for _ in 0..u64::MAX {
        match file.read(&mut buffer) {
            Ok(0) => break,
            Ok(n) => bytes.extend_from_slice(&buffer[..n])?,
            Err(e) if e.kind() == ErrorKind::Interrupted => {}
            Err(_) => return Err(Failure::CannotRead),
        }
        if bytes.len() >= MOST {
            break;
        }
    }
    Ok(bytes)
}
