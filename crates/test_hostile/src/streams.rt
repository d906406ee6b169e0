//! A stream of two rounds that is cut at each offset: by its end, by a reader that fails, or by a writer that fails.

use cache::NoGate;
use jtypes::NoLoader;
use serve::{ServeFault, Settings, serve};
use std::alloc::Global;
use std::io::{self, Read, Write};
use std::process::Abort;
use std::sync::Wait;
use std::test::Fail;
use std::thread::Threads;
use wire::{Counted, Plain, Protocol};

/// A put of 1 on key 5, a round end, a get of key 5, a round end.
static REQUESTS: [u8; 44] = [
    0, 0, 0, 0x11, 2, 0, 0, 0, 0, 0, 0, 0, 5, 0, 0, 0, 0, 0, 0, 0, 1, //
    0, 0, 0, 1, 8, //
    0, 0, 0, 9, 3, 0, 0, 0, 0, 0, 0, 0, 5, //
    0, 0, 0, 1, 8,
];

/// The replies to `REQUESTS`.
static REPLIES: [u8; 29] = [
    0, 0, 0, 1, 3, //
    0, 0, 0, 1, 9, //
    0, 0, 0, 0x0A, 4, 1, 0, 0, 0, 0, 0, 0, 0, 1, //
    0, 0, 0, 1, 9,
];

/// Returns the replies to the rounds that end within the first `count` bytes of `REQUESTS`.
fn answered(count: usize) -> &'static [u8] {
    match count {
        0..=25 => &[],
        26..=43 => &REPLIES[..10],
        _ => &REPLIES,
    }
}

/// The worker counts with which a stream is served.
static WORKERS: [usize; 3] = [0, 1, 4];

fn settings(workers: usize) -> Settings {
    Settings {
        workers,
        stripes: 2,
        share: 0,
        protocol: Protocol::One,
    }
}

#[test]
fn a_cut_stream_answers_its_whole_rounds(rt: HostRuntime) -> Result<(), Fail> {
    for workers in WORKERS {
        for count in 0..=44 {
            let mut reader = Counted::new(&REQUESTS[..count]);
            let mut writer = Counted::new(Vec::new(rt.alloc()));
            let settings = settings(workers);
            let result = serve(&rt, &mut reader, &mut writer, settings, &NoGate, &NoLoader);
            let is_whole = count == 0 || count == 26 || count == 44;
            let wanted = if is_whole {
                Ok(())
            } else {
                Err(ServeFault::Truncated)
            };
            assert!(rt; result == wanted, "{count} bytes, {workers} workers");
            let output = writer.into_inner();
            assert_eq!(rt; output.as_slice(), answered(count));
        }
    }
    Ok(())
}

/// A reader that returns at most `most` bytes a call, and fails after its last byte.
#[derive(Drop)]
struct Failing<'a> {
    rest: &'a [u8],
    most: usize,
}

impl<'a> Read for Failing<'a> {
    fn read(&mut self, buf: &mut [u8]) -> io::Result<usize> {
        if buf.is_empty() {
            return Ok(0);
        }
        if self.rest.is_empty() {
            return Err(io::Error::from(io::ErrorKind::BrokenPipe));
        }
        let count = buf.len().min(self.rest.len()).min(self.most);
        let (given, rest) = self.rest.split_at(count);
        buf[..count].copy_from_slice(given);
        self.rest = rest;
        Ok(count)
    }
}

#[test]
fn a_reader_that_fails_ends_the_stream(rt: HostRuntime) -> Result<(), Fail> {
    for workers in WORKERS {
        for most in [1, 3, 64] {
            for count in 0..=44 {
                let rest = &REQUESTS[..count];
                let inner = Failing { rest, most };
                let mut reader = Counted::new(Plain { inner });
                let mut writer = Counted::new(Vec::new(rt.alloc()));
                let settings = settings(workers);
                let result = serve(&rt, &mut reader, &mut writer, settings, &NoGate, &NoLoader);
                assert!(rt;
                    result == Err(ServeFault::Read),
                    "{count} bytes, {workers} workers"
                );
                assert_eq!(rt; reader.failures(), 1);
                let output = writer.into_inner();
                assert_eq!(rt; output.as_slice(), answered(count));
            }
        }
    }
    Ok(())
}

/// What a full writer does with a further byte.
#[derive(Clone, Copy, PartialEq, Eq)]
enum Full {
    Fails,
    TakesNone,
}

/// A writer that accepts at most `at_once` bytes a call, and `most` bytes in all.
#[derive(Drop)]
struct Sink {
    bytes: Vec<u8>,
    most: usize,
    at_once: usize,
    full: Full,
}

impl Write for Sink {
    fn write(&mut self, buf: &[u8]) -> io::Result<usize> {
        let room = self.most.saturating_sub(self.bytes.len());
        let count = buf.len().min(room).min(self.at_once);
        if count == 0 && self.full == Full::Fails {
            return Err(io::Error::from(io::ErrorKind::BrokenPipe));
        }
        self.bytes.extend_from_slice(&buf[..count])?;
        Ok(count)
    }

    fn flush(&mut self) -> io::Result<()> {
        Ok(())
    }
}

/// Serves `REQUESTS` to such a writer. Returns the result, and the bytes that are written.
fn served_to<T: Threads + Wait + Sync + AllocGlobal>(
    rt: &T,
    alloc: Global,
    workers: usize,
    sink: Sink,
) -> (Result<(), ServeFault>, Vec<u8>) {
    let mut reader = Counted::new(&REQUESTS[..]);
    let mut writer = Counted::new(sink);
    let settings = settings(workers);
    let result = serve(rt, &mut reader, &mut writer, settings, &NoGate, &NoLoader);
    let Sink { bytes, .. } = writer.into_inner();
    (result, bytes)
}

#[test]
fn a_writer_that_fails_has_a_beginning_of_the_replies(rt: HostRuntime) -> Result<(), Fail> {
    for workers in WORKERS {
        for full in [Full::Fails, Full::TakesNone] {
            for at_once in [1, 64] {
                for most in 0..29 {
                    let sink = Sink {
                        bytes: Vec::new(rt.alloc()),
                        most,
                        at_once,
                        full,
                    };
                    let (result, written) = served_to(&rt, rt.alloc(), workers, sink);
                    assert!(rt;
                        result == Err(ServeFault::Write),
                        "{most} bytes, {workers} workers"
                    );
                    assert_eq!(rt; written.as_slice(), &REPLIES[..most]);
                }
            }
        }
    }
    Ok(())
}

#[test]
fn a_writer_that_takes_one_byte_a_call_has_all(rt: HostRuntime) -> Result<(), Fail> {
    for workers in WORKERS {
        let sink = Sink {
            bytes: Vec::new(rt.alloc()),
            most: 29,
            at_once: 1,
            full: Full::Fails,
        };
        let (result, written) = served_to(&rt, rt.alloc(), workers, sink);
        assert_eq!(rt; result, Ok(()));
        assert_eq!(rt; written.as_slice(), &REPLIES[..]);
    }
    Ok(())
}
