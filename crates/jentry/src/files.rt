//! The files that a command reads.

use std::alloc::Global;
use std::fs::OpenOptions;
use std::io::{ErrorKind, Read};

/// The maximum size of a class file, in bytes.
pub const MOST_CLASS: usize = 65_536;

/// Why a file could not be read.
#[derive(Clone, Copy, Debug, PartialEq, Eq)]
pub enum FileFault {
    CannotRead,
    NoMemory,
}

/// A source of files.
pub trait Files {
    /// Returns the bytes of the named file. Of a file longer than `most` bytes it returns more than `most`, and maybe not all.
    fn read(&self, alloc: Global, name: &str, most: usize) -> Result<Vec<u8>, FileFault>;
}

/// The files of the host.
#[derive(Drop)]
pub struct RealFiles<'a, R> {
    rt: &'a R,
}

impl<'a, R: std::rt::Files> RealFiles<'a, R> {
    pub fn new(rt: &'a R) -> RealFiles<'a, R> {
        RealFiles { rt }
    }
}

/// Reads to the end, or until it has more than `most` bytes.
fn read_to_most<F: Read>(alloc: Global, file: &mut F, most: usize) -> Result<Vec<u8>, FileFault> {
    let mut bytes = Vec::new(alloc);
    let mut buffer = [0u8; 4096];
    for _ in 0..u64::MAX {
        let n = match file.read(&mut buffer) {
            Ok(n) => n,
            Err(e) if e.kind() == ErrorKind::Interrupted => continue,
            Err(e) if e.kind() == ErrorKind::OutOfMemory => return Err(FileFault::NoMemory),
            Err(_) => return Err(FileFault::CannotRead),
        };
        if n == 0 {
            break;
        }
        if bytes.extend_from_slice(&buffer[..n]).is_err() {
            return Err(FileFault::NoMemory);
        }
        if bytes.len() > most {
            break;
        }
    }
    Ok(bytes)
}

impl<R: std::rt::Files> Files for RealFiles<'_, R> {
    fn read(&self, alloc: Global, name: &str, most: usize) -> Result<Vec<u8>, FileFault> {
        match OpenOptions::new().read(true).open(self.rt, name) {
            Ok(mut file) => read_to_most(alloc, &mut file, most),
            Err(e) if e.kind() == ErrorKind::OutOfMemory => Err(FileFault::NoMemory),
            Err(_) => Err(FileFault::CannotRead),
        }
    }
}
