//! Writers that fail, or that accept a few bytes a call.

use super::{RESULTS, results};
use std::alloc::{AllocError, Global};
use std::io;
use std::io::Write;
use std::test::Fail;
use wire::{Counted, WriteFailed, write_bytes, write_reply};

/// A writer that accepts `most` bytes in all, at most 3 a call. Then it accepts none, or fails if `fails` is set.
#[derive(Drop)]
struct Sink {
    bytes: Vec<u8>,
    most: usize,
    fails: bool,
}

impl Write for Sink {
    fn write(&mut self, buf: &[u8]) -> io::Result<usize> {
        let room = self.most.saturating_sub(self.bytes.len());
        let n = buf.len().min(room).min(3);
        if n == 0 && self.fails {
            return Err(io::Error::from(io::ErrorKind::Interrupted));
        }
        self.bytes.extend_from_slice(&buf[..n])?;
        Ok(n)
    }

    fn flush(&mut self) -> io::Result<()> {
        if self.fails {
            return Err(io::Error::from(io::ErrorKind::BrokenPipe));
        }
        Ok(())
    }
}

/// The result of a write to a `Sink`, and the state of the writer after it.
#[derive(Clone, Copy, Debug, PartialEq, Eq)]
struct Given {
    result: Result<(), WriteFailed>,
    failures: u64,
    idle: u64,
    /// Whether the sink holds the expected bytes.
    is_as_wanted: bool,
}

/// Writes the results to a sink that accepts `most` bytes, and compares its bytes with the first `most` bytes of the frame.
fn results_given(alloc: Global, most: usize, fails: bool) -> Result<Given, AllocError> {
    let reply = results(alloc)?;
    let mut writer = Counted::new(Sink {
        bytes: Vec::new(alloc),
        most,
        fails,
    });
    let result = write_reply(&mut writer, &reply);
    let (failures, idle) = (writer.failures(), writer.idle());
    let Sink { bytes, .. } = writer.into_inner();
    Ok(Given {
        result,
        failures,
        idle,
        is_as_wanted: RESULTS.get(..most) == Some(bytes.as_slice()),
    })
}

/// The expected result for a sink that is full before the end of the frame.
fn failed(fails: bool) -> Given {
    Given {
        result: Err(WriteFailed),
        failures: u64::from(fails),
        idle: u64::from(!fails),
        is_as_wanted: true,
    }
}

#[test]
fn a_writer_that_fails_has_a_beginning(rt: HostRuntime) -> Result<(), Fail> {
    for most in 0..RESULTS.len() {
        for fails in [false, true] {
            assert_eq!(rt; results_given(rt.alloc(), most, fails)?, failed(fails));
        }
    }
    Ok(())
}

/// Writes the results and four bytes to a sink that accepts 3 bytes a call. Then an empty write and a flush must fail.
fn given_all(alloc: Global) -> Result<Given, AllocError> {
    let reply = results(alloc)?;
    let mut writer = Counted::new(Sink {
        bytes: Vec::new(alloc),
        most: 1000,
        fails: true,
    });
    let reply = write_reply(&mut writer, &reply);
    let bytes = write_bytes(&mut writer, &[7, 8, 9, 10]);
    let fails = writer.write(&[]).is_err() && writer.flush().is_err();
    let (failures, idle) = (writer.failures(), writer.idle());
    let Sink { bytes: given, .. } = writer.into_inner();
    let given = given.as_slice();
    Ok(Given {
        result: reply.and(bytes),
        failures,
        idle,
        is_as_wanted: fails && given.strip_prefix(&RESULTS[..]) == Some(&[7, 8, 9, 10][..]),
    })
}

#[test]
fn a_writer_that_takes_few_bytes_has_all(rt: HostRuntime) -> Result<(), Fail> {
    let wanted = Given {
        result: Ok(()),
        failures: 2,
        idle: 0,
        is_as_wanted: true,
    };
    assert_eq!(rt; given_all(rt.alloc())?, wanted);
    Ok(())
}
