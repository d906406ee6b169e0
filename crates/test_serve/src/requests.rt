//! Request streams and their replies, byte by byte.

mod holding;
mod meetings;
mod second;
mod shared;

use cache::{Gate, NoGate};
use jtypes::NoLoader;
use rowclasses as rows;
use serve::{ServeFault, Settings, serve};
use std::alloc::{AllocError, Global};
use std::io;
use std::io::{Read, Write};
use std::sync::Wait;
use std::test::Fail;
use std::thread::Threads;
use wire::{Ahead, Counted, Plain, Protocol};

/// How the service of a stream ended: its fault, `None` if it has none, and the bytes of the replies.
#[derive(Drop)]
struct Ended {
    fault: Option<ServeFault>,
    output: Vec<u8>,
}

fn serve_all<T: Threads + Wait + Sync + AllocGlobal>(
    rt: &T,
    alloc: Global,
    input: &[u8],
    workers: usize,
) -> Ended {
    let settings = Settings {
        workers,
        stripes: 16,
        share: 0,
        protocol: Protocol::One,
    };
    serve_beside(rt, alloc, input, settings, &NoGate)
}

/// Serves the requests from a reader to a writer, without a loader.
fn served<T: Threads + Wait + Sync + AllocGlobal, R: Ahead, W: Write, G: Gate + Sync>(
    rt: &T,
    reader: &mut Counted<R>,
    writer: &mut Counted<W>,
    settings: Settings,
    gate: &G,
) -> Result<(), ServeFault> {
    serve(rt, reader, writer, settings, gate, &NoLoader)
}

fn serve_beside<T: Threads + Wait + Sync + AllocGlobal, G: Gate + Sync>(
    rt: &T,
    alloc: Global,
    input: &[u8],
    settings: Settings,
    gate: &G,
) -> Ended {
    let mut reader = Counted::new(input);
    let mut writer = Counted::new(Vec::new(alloc));
    let fault = served(rt, &mut reader, &mut writer, settings, gate).err();
    Ended {
        fault,
        output: writer.into_inner(),
    }
}

/// Appends the frame that defines a class.
fn define(input: &mut Vec<u8>, class: &[u8]) -> Result<(), AllocError> {
    let length = (1 + class.len()) % 65_536;
    input.extend_from_slice(&[0, 0, (length / 256) as u8, (length % 256) as u8, 1])?;
    input.extend_from_slice(class)
}

static ROUND_END: [u8; 5] = [0, 0, 0, 1, 8];

/// Returns the frame that defines a class, followed by `rest`.
fn defined(alloc: Global, class: &[u8], rest: &[u8]) -> Result<Vec<u8>, AllocError> {
    let mut input = Vec::new(alloc);
    define(&mut input, class)?;
    input.extend_from_slice(rest)?;
    Ok(input)
}

/// Checks that this input, served with `workers` workers, has this fault and this output.
fn comes_to<T: Threads + Wait + Sync + AllocGlobal>(
    rt: &T,
    alloc: Global,
    input: &[u8],
    workers: usize,
    fault: Option<ServeFault>,
    output: &[u8],
) -> bool {
    let ended = serve_all(rt, alloc, input, workers);
    ended.fault == fault && ended.output.as_slice() == output
}

/// The worker counts with which each stream is served.
static WORKERS: [usize; 4] = [0, 1, 4, 16];

/// Does the same with each count of `WORKERS`.
fn each_comes_to<T: Threads + Wait + Sync + AllocGlobal>(
    rt: &T,
    alloc: Global,
    input: &[u8],
    fault: Option<ServeFault>,
    output: &[u8],
) -> bool {
    let mut is_right = true;
    for workers in WORKERS {
        is_right = is_right && comes_to(rt, alloc, input, workers, fault, output);
    }
    is_right
}

/// A reader that returns its bytes one at a time, and then fails.
#[derive(Drop)]
struct Drops<'a> {
    rest: &'a [u8],
}

impl<'a> Read for Drops<'a> {
    fn read(&mut self, buf: &mut [u8]) -> io::Result<usize> {
        match self.rest {
            [first, rest @ ..] if !buf.is_empty() => {
                buf[0] = *first;
                self.rest = rest;
                Ok(1)
            }
            _ => Err(io::Error::from(io::ErrorKind::Interrupted)),
        }
    }
}

/// A writer that accepts `most` bytes. Then it accepts none, or fails if `fails` is set.
#[derive(Drop)]
struct Sink {
    bytes: Vec<u8>,
    most: usize,
    fails: bool,
}

impl Write for Sink {
    fn write(&mut self, buf: &[u8]) -> io::Result<usize> {
        let n = buf.len().min(self.most.saturating_sub(self.bytes.len()));
        if n == 0 && self.fails {
            return Err(io::Error::from(io::ErrorKind::Interrupted));
        }
        self.bytes.extend_from_slice(&buf[..n])?;
        Ok(n)
    }

    fn flush(&mut self) -> io::Result<()> {
        if self.fails && self.bytes.len() >= self.most {
            return Err(io::Error::from(io::ErrorKind::BrokenPipe));
        }
        Ok(())
    }
}

static SETTINGS: Settings = Settings {
    workers: 4,
    stripes: 16,
    share: 0,
    protocol: Protocol::One,
};

/// Serves a round end from a reader that fails after `end` bytes.
/// Returns the result, the number of failed reads, and the number of bytes written.
fn dropped<T: Threads + Wait + Sync + AllocGlobal>(
    rt: &T,
    alloc: Global,
    end: usize,
) -> (Result<(), ServeFault>, u64, usize) {
    if end > 5 {
        return (Ok(()), 0, 0);
    }
    let mut reader = Counted::new(Plain {
        inner: Drops {
            rest: &ROUND_END[..end],
        },
    });
    let mut writer = Counted::new(Vec::new(alloc));
    let result = served(rt, &mut reader, &mut writer, SETTINGS, &NoGate);
    (result, reader.failures(), writer.into_inner().len())
}

#[test]
fn a_reader_that_fails_is_told(rt: HostRuntime) -> Result<(), Fail> {
    for end in 0..=5 {
        let wanted = (Err(ServeFault::Read), 1, if end == 5 { 5 } else { 0 });
        assert_eq!(rt; dropped(&rt, rt.alloc(), end), wanted);
    }
    Ok(())
}

/// Serves a round end to a writer that accepts `most` bytes.
/// Returns the result, the numbers of failed and of idle writes, and whether the writer has the first `most` bytes of the reply.
fn sunk<T: Threads + Wait + Sync + AllocGlobal>(
    rt: &T,
    alloc: Global,
    most: usize,
    fails: bool,
) -> (Result<(), ServeFault>, u64, u64, bool) {
    if most > 5 {
        return (Ok(()), 0, 0, false);
    }
    let mut reader = Counted::new(&ROUND_END[..]);
    let mut writer = Counted::new(Sink {
        bytes: Vec::new(alloc),
        most,
        fails,
    });
    let result = served(rt, &mut reader, &mut writer, SETTINGS, &NoGate);
    let (failures, idle) = (writer.failures(), writer.idle());
    let is_beginning = writer.into_inner().bytes.as_slice() == &[0, 0, 0, 1, 9][..most];
    (result, failures, idle, is_beginning)
}

#[test]
fn a_writer_that_fails_is_told(rt: HostRuntime) -> Result<(), Fail> {
    for most in 0..5 {
        for fails in [false, true] {
            let wanted = (
                Err(ServeFault::Write),
                u64::from(fails),
                u64::from(!fails),
                true,
            );
            assert_eq!(rt; sunk(&rt, rt.alloc(), most, fails), wanted);
        }
    }
    Ok(())
}

#[test]
fn a_writer_that_fails_to_flush_is_told(rt: HostRuntime) -> Result<(), Fail> {
    let (result, failures, _idle, is_whole) = sunk(&rt, rt.alloc(), 5, true);
    assert_eq!(rt;
        (result, failures, is_whole),
        (Err(ServeFault::Write), 1, true)
    );
    Ok(())
}

/// The faults in the order of their numbers, from 1, and their names.
static FAULTS: [(ServeFault, &str); 7] = [
    (ServeFault::TooLong, "TooLong"),
    (ServeFault::Truncated, "Truncated"),
    (ServeFault::Malformed, "Malformed"),
    (ServeFault::Read, "Read"),
    (ServeFault::NoMemory, "NoMemory"),
    (ServeFault::Write, "Write"),
    (ServeFault::BadCount, "BadCount"),
];

#[test]
fn faults_have_numbers_and_names(rt: HostRuntime) -> Result<(), Fail> {
    for (i, (fault, name)) in FAULTS.iter().enumerate() {
        assert_eq!(rt; usize::from(fault.number()), i + 1);
        assert_eq!(rt; fault.name(), *name);
    }
    Ok(())
}

/// Returns a stream of two rounds: the first defines Plus and puts 41 on key 7, the second invokes Plus on key 7.
fn put_and_invoke(alloc: Global) -> Result<Vec<u8>, AllocError> {
    let plus = rows::plus(alloc)?;
    defined(
        alloc,
        &plus,
        &[
            0, 0, 0, 0x11, 2, 0, 0, 0, 0, 0, 0, 0, 7, 0, 0, 0, 0, 0, 0, 0, 41, //
            0, 0, 0, 1, 8, //
            0, 0, 0, 0x0E, 6, 0, 0, 0, 0, 0, 0, 0, 0, 0, 0, 0, 7, 0, //
            0, 0, 0, 1, 8,
        ],
    )
}

#[test]
fn a_class_is_invoked_on_the_entry_of_the_round_before(rt: HostRuntime) -> Result<(), Fail> {
    let input = put_and_invoke(rt.alloc())?;
    assert!(rt; each_comes_to(&rt, rt.alloc(), &input, None, &[
        0, 0, 0, 13, 1, 0, 0, 0, 0, 0, 0, 0, 14, 0, 0, 0, 0, //
        0, 0, 0, 1, 3, //
        0, 0, 0, 1, 9, //
        0, 0, 0, 0x0B, 6, 0, 1, 0, 0, 0, 0, 0, 0, 0, 0x2A, //
        0, 0, 0, 1, 9,
    ]));
    Ok(())
}

/// Returns the reply to an invocation that returned this `Long`.
fn returned(n: u8) -> [u8; 15] {
    [0, 0, 0, 0x0B, 6, 0, 1, 0, 0, 0, 0, 0, 0, 0, n]
}
