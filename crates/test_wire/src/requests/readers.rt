//! Readers that fail.

use super::PUT;
use std::alloc::Global;
use std::io;
use std::io::Read;
use wire::{Counted, Plain, Protocol, Request, WireFault, read_request};

/// A reader that returns one byte a call, and then fails with `error`.
#[derive(Drop)]
struct Drops<'a> {
    rest: &'a [u8],
    error: io::ErrorKind,
}

impl<'a> Read for Drops<'a> {
    fn read(&mut self, buf: &mut [u8]) -> io::Result<usize> {
        match self.rest {
            [first, rest @ ..] if !buf.is_empty() => {
                buf[0] = *first;
                self.rest = rest;
                Ok(1)
            }
            _ => Err(io::Error::from(self.error)),
        }
    }
}

/// Reads a request from such a reader. Returns the fault, or whether the request is `PUT`, and how many reads failed.
fn read_from(alloc: Global, rest: &[u8], error: io::ErrorKind) -> (Result<bool, WireFault>, u64) {
    let inner = Drops { rest, error };
    let mut reader = Counted::new(Plain { inner });
    let told = match read_request(alloc, Protocol::One, &mut reader, &mut Vec::new(alloc)) {
        Ok(Some(Request::Put { key, value })) => Ok(key == 5 && value == 1),
        Ok(_) => Ok(false),
        Err(fault) => Err(fault),
    };
    (told, reader.failures())
}

#[test]
fn a_failed_read_is_counted(rt: HostRuntime) {
    for n in 0..PUT.len() {
        let told = read_from(rt.alloc(), &PUT[..n], io::ErrorKind::Interrupted);
        assert_eq!(rt; told, (Err(WireFault::Read), 1));
    }
    let told = read_from(rt.alloc(), &PUT, io::ErrorKind::BrokenPipe);
    assert_eq!(rt; told, (Ok(true), 0));
}
