//! A stream with calls on one key, when an allocation may be refused.

use cache::NoGate;
use jtypes::NoLoader;
use rowclasses as rows;
use serve::{ServeFault, Settings, serve};
use std::alloc::{AllocError, Global};
use std::sync::Wait;
use std::test::Fail;
use std::thread::Threads;
use wire::{Counted, Protocol};

/// Returns a stream of two rounds. The first defines Plus as class 0 and puts 41 on key 7.
/// The second invokes class 0 on key 7, and by one request on the keys 7 and 8.
fn script(alloc: Global) -> Result<Vec<u8>, AllocError> {
    let mut input = Vec::new(alloc);
    input.extend_from_slice(&[0, 0, 2, 0xD8, 1])?;
    input.extend_from_slice(&rows::plus(alloc)?)?;
    input.extend_from_slice(&[
        0, 0, 0, 0x11, 2, 0, 0, 0, 0, 0, 0, 0, 7, 0, 0, 0, 0, 0, 0, 0, 41,
    ])?;
    input.extend_from_slice(&[0, 0, 0, 1, 8])?;
    input.extend_from_slice(&[0, 0, 0, 0x0E, 6, 0, 0, 0, 0, 0, 0, 0, 0, 0, 0, 0, 7, 0])?;
    input.extend_from_slice(&[
        0, 0, 0, 0x18, 7, 0, 0, 0, 0, 0, 2, 0, 0, 0, 0, 0, 0, 0, 7, 0, 0, 0, 0, 0, 0, 0, 8, 0,
    ])?;
    input.extend_from_slice(&[0, 0, 0, 1, 8])?;
    Ok(input)
}

static DEFINED: [u8; 17] = [0, 0, 0, 13, 1, 0, 0, 0, 0, 0, 0, 0, 14, 0, 0, 0, 0];

static REFUSED_MEMORY: [u8; 10] = [0, 0, 0, 6, 2, 30, 0, 0, 0, 0];

static DONE: [u8; 5] = [0, 0, 0, 1, 3];

static DENIED_MEMORY: [u8; 6] = [0, 0, 0, 2, 8, 3];

static DENIED_CLASS: [u8; 6] = [0, 0, 0, 2, 8, 1];

static ENDED: [u8; 5] = [0, 0, 0, 1, 9];

/// How a job on one key ended.
#[derive(Clone, Copy, PartialEq, Eq)]
enum End {
    Returned(u8),
    ThrewNullPointer,
    LackedMemory,
}

/// The replies that are not read yet.
#[derive(Clone, Copy)]
struct Replies<'r> {
    rest: &'r [u8],
}

impl<'r> Replies<'r> {
    /// Returns whether these bytes come next; if they do, it skips them.
    fn takes(&mut self, bytes: &[u8]) -> bool {
        match self.rest.split_at_checked(bytes.len()) {
            Some((front, rest)) if front == bytes => {
                self.rest = rest;
                true
            }
            _ => false,
        }
    }

    /// Reads the outcome of a job within a reply; returns `None` if it is malformed.
    fn end(&mut self) -> Option<End> {
        if self.takes(&[1, 3]) {
            return Some(End::ThrewNullPointer);
        }
        if self.takes(&[2, 3]) {
            return Some(End::LackedMemory);
        }
        if !self.takes(&[0, 1, 0, 0, 0, 0, 0, 0, 0]) {
            return None;
        }
        let (value, rest) = self.rest.split_first()?;
        self.rest = rest;
        Some(End::Returned(*value))
    }

    /// Reads the reply to an invocation; returns `None` if it is malformed.
    fn result(&mut self) -> Option<End> {
        if self.takes(&DENIED_MEMORY) {
            return Some(End::LackedMemory);
        }
        if !self.takes(&[0, 0, 0, 3, 6]) && !self.takes(&[0, 0, 0, 11, 6]) {
            return None;
        }
        self.end()
    }

    /// Reads the reply to the invocations on the keys 7 and 8; returns `None` if it is malformed.
    fn results(&mut self) -> Option<(End, End)> {
        let (length, rest) = self.rest.split_at_checked(4)?;
        self.rest = rest;
        let before = self.rest.len();
        if !self.takes(&[7, 0, 2, 0, 0, 0, 0, 0, 0, 0, 7]) {
            return None;
        }
        let first = self.end()?;
        if !self.takes(&[0, 0, 0, 0, 0, 0, 0, 8]) {
            return None;
        }
        let second = self.end()?;
        let taken = before.checked_sub(self.rest.len())?;
        let [0, 0, 0, told] = length else {
            return None;
        };
        if taken == usize::from(*told) {
            Some((first, second))
        } else {
            None
        }
    }
}

/// Checks that two jobs that each add 1 to the entry of key 7 may end so in some order; `is_put` says if the entry was put.
fn may_end(is_put: bool, first: End, second: End) -> bool {
    if is_put {
        matches!(
            (first, second),
            (End::Returned(42), End::Returned(43) | End::LackedMemory)
                | (End::Returned(43), End::Returned(42))
                | (End::LackedMemory, End::Returned(42) | End::LackedMemory)
        )
    } else {
        !matches!(first, End::Returned(_)) && !matches!(second, End::Returned(_))
    }
}

/// Checks that the replies may be those to the requests of the second round.
fn second_round(replies: &mut Replies<'_>, is_defined: bool, is_put: bool) -> bool {
    if !is_defined {
        return replies.takes(&DENIED_CLASS) && replies.takes(&DENIED_CLASS);
    }
    let Some(first) = replies.result() else {
        return false;
    };
    let Some((second, absent)) = replies.results() else {
        return false;
    };
    may_end(is_put, first, second) && !matches!(absent, End::Returned(_))
}

/// Checks that the replies are those to both rounds, or, with the fault `NoMemory`, those to none or to the first.
fn are_right(replies: &[u8], fault: Option<ServeFault>) -> bool {
    let may_end = match fault {
        None => false,
        Some(ServeFault::NoMemory) => true,
        Some(_) => return false,
    };
    let mut replies = Replies { rest: replies };
    if may_end && replies.rest.is_empty() {
        return true;
    }
    let is_defined = replies.takes(&DEFINED);
    if !is_defined && !replies.takes(&REFUSED_MEMORY) {
        return false;
    }
    let is_put = replies.takes(&DONE);
    if !is_put && !replies.takes(&DENIED_MEMORY) || !replies.takes(&ENDED) {
        return false;
    }
    if may_end {
        return replies.rest.is_empty();
    }
    second_round(&mut replies, is_defined, is_put)
        && replies.takes(&ENDED)
        && replies.rest.is_empty()
}

/// Serves the script with `workers` workers, and checks the replies.
fn is_served<T: Threads + Wait + Sync + AllocGlobal>(
    rt: &T,
    alloc: Global,
    workers: usize,
) -> Result<bool, AllocError> {
    let input = script(alloc)?;
    let mut reader = Counted::new(input.as_slice());
    let mut writer = Counted::new(Vec::with_capacity(alloc, 256)?);
    let settings = Settings {
        workers,
        stripes: 16,
        share: 0,
        protocol: Protocol::One,
    };
    let fault = serve(rt, &mut reader, &mut writer, settings, &NoGate, &NoLoader).err();
    let output = writer.into_inner();
    Ok(are_right(output.as_slice(), fault))
}

/// When the script or the output buffer can't be allocated, nothing is checked.
#[test]
fn calls_on_one_key_are_served_or_lack_memory(rt: HostRuntime) {
    for workers in [0, 4] {
        if let Ok(is_served) = is_served(&rt, rt.alloc(), workers) {
            assert!(rt; is_served, "{workers} workers");
        }
    }
}
