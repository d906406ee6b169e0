//! Request streams, when an allocation may be refused.

use cache::NoGate;
use jtypes::NoLoader;
use rowclasses as rows;
use serve::{ServeFault, Settings, serve};
use std::alloc::{AllocError, Global};
use std::sync::Wait;
use std::test::Fail;
use std::thread::Threads;
use wire::{Counted, Protocol};

/// The number of keys, which are 0 to 39.
const KEYS: u8 = 40;

static ROUND_END: [u8; 5] = [0, 0, 0, 1, 8];

static ENDED: [u8; 5] = [0, 0, 0, 1, 9];

static DONE: [u8; 5] = [0, 0, 0, 1, 3];

static DENIED_MEMORY: [u8; 6] = [0, 0, 0, 2, 8, 3];

static DENIED_CLASS: [u8; 6] = [0, 0, 0, 2, 8, 1];

static DEFINED: [u8; 17] = [0, 0, 0, 13, 1, 0, 0, 0, 0, 0, 0, 0, 14, 0, 0, 0, 0];

static REFUSED_MEMORY: [u8; 10] = [0, 0, 0, 6, 2, 30, 0, 0, 0, 0];

static THREW_NULL_POINTER: [u8; 7] = [0, 0, 0, 3, 6, 1, 3];

/// Returns the reply to an invocation that returned this `Long`.
fn returned(n: u8) -> [u8; 15] {
    [0, 0, 0, 0x0B, 6, 0, 1, 0, 0, 0, 0, 0, 0, 0, n]
}

/// Returns a stream of two rounds: the first defines Plus and puts each key as its own value, the second invokes Plus on each key.
fn script(alloc: Global) -> Result<Vec<u8>, AllocError> {
    let plus = rows::plus(alloc)?;
    let mut input = Vec::new(alloc);
    input.extend_from_slice(&[0, 0, 2, 0xD8, 1])?;
    input.extend_from_slice(&plus)?;
    for key in 0..KEYS {
        input.extend_from_slice(&[
            0, 0, 0, 0x11, 2, 0, 0, 0, 0, 0, 0, 0, key, 0, 0, 0, 0, 0, 0, 0, key,
        ])?;
    }
    input.extend_from_slice(&ROUND_END)?;
    for key in 0..KEYS {
        input.extend_from_slice(&[0, 0, 0, 0x0E, 6, 0, 0, 0, 0, 0, 0, 0, 0, 0, 0, 0, key, 0])?;
    }
    input.extend_from_slice(&ROUND_END)?;
    Ok(input)
}

/// Returns the bytes after `frame`, `None` if `replies` doesn't begin with it.
fn behind<'r>(replies: &'r [u8], frame: &[u8]) -> Option<&'r [u8]> {
    let (front, rest) = replies.split_at_checked(frame.len())?;
    if front == frame { Some(rest) } else { None }
}

/// Reads the replies to the first round. Returns the bytes after them, whether the class is defined, and which keys are put.
/// Returns `None` if they can't be the replies to this round.
fn first_round<'r>(replies: &'r [u8]) -> Option<(&'r [u8], bool, [bool; 40])> {
    let (mut rest, is_defined) = match behind(replies, &DEFINED) {
        Some(rest) => (rest, true),
        None => (behind(replies, &REFUSED_MEMORY)?, false),
    };
    let mut are_put = [false; 40];
    for is_put in are_put.iter_mut() {
        match behind(rest, &DONE) {
            Some(next) => {
                *is_put = true;
                rest = next;
            }
            None => rest = behind(rest, &DENIED_MEMORY)?,
        }
    }
    Some((behind(rest, &ENDED)?, is_defined, are_put))
}

/// Returns the bytes after the reply to an invocation on a key, `None` if it can't be the reply.
fn invoked<'r>(replies: &'r [u8], is_defined: bool, key: u8, is_put: bool) -> Option<&'r [u8]> {
    if !is_defined {
        return behind(replies, &DENIED_CLASS);
    }
    let told = if is_put {
        behind(replies, &returned(key.wrapping_add(1)))
    } else {
        behind(replies, &THREW_NULL_POINTER)
    };
    match told {
        Some(rest) => Some(rest),
        None => behind(replies, &DENIED_MEMORY),
    }
}

/// Returns `Some(true)` if the replies are those to both rounds, or, with the fault `NoMemory`, those to none or to the first.
fn are_right(replies: &[u8], fault: Option<ServeFault>) -> Option<bool> {
    let may_end = fault == Some(ServeFault::NoMemory);
    if may_end && replies.is_empty() {
        return Some(true);
    }
    let (mut rest, is_defined, are_put) = first_round(replies)?;
    if may_end && rest.is_empty() {
        return Some(true);
    }
    for (key, is_put) in (0..KEYS).zip(are_put.iter()) {
        rest = invoked(rest, is_defined, key, *is_put)?;
    }
    Some(fault.is_none() && behind(rest, &ENDED)?.is_empty())
}

/// Serves the script with `workers` workers, and checks the replies.
fn script_is_served<T: Threads + Wait + Sync + AllocGlobal>(
    rt: &T,
    alloc: Global,
    workers: usize,
) -> Result<bool, AllocError> {
    let input = script(alloc)?;
    let mut reader = Counted::new(input.as_slice());
    let mut writer = Counted::new(Vec::with_capacity(alloc, 4096)?);
    let settings = Settings {
        workers,
        stripes: 4,
        share: 0,
        protocol: Protocol::One,
    };
    let fault = serve(rt, &mut reader, &mut writer, settings, &NoGate, &NoLoader).err();
    let output = writer.into_inner();
    Ok(are_right(output.as_slice(), fault).unwrap_or(false))
}

/// When the script or the output buffer can't be allocated, nothing is checked.
#[test]
fn streams_are_served_or_lack_memory(rt: HostRuntime) {
    for workers in [0, 1, 4] {
        if let Ok(is_served) = script_is_served(&rt, rt.alloc(), workers) {
            assert!(rt; is_served, "{workers} workers");
        }
    }
}
