//! Streams of protocol 2.

use super::{ROUND_END, define, defined, serve_beside};
use cache::NoGate;
use rowclasses as rows;
use serve::{ServeFault, Settings};
use std::alloc::{AllocError, Global};
use std::sync::Wait;
use std::test::Fail;
use std::thread::Threads;
use wire::Protocol;

/// Checks that this input, served in a protocol with each of these worker counts, has this fault and this output.
fn comes_to<T: Threads + Wait + Sync + AllocGlobal>(
    rt: &T,
    alloc: Global,
    input: &[u8],
    protocol: Protocol,
    fault: Option<ServeFault>,
    output: &[u8],
) -> bool {
    let mut is_right = true;
    for workers in [0, 1, 4] {
        let settings = Settings {
            workers,
            stripes: 16,
            share: 0,
            protocol,
        };
        let ended = serve_beside(rt, alloc, input, settings, &NoGate);
        let is_so = ended.fault == fault && ended.output.as_slice() == output;
        is_right = is_right && is_so;
    }
    is_right
}

static VERSION: [u8; 5] = [0, 0, 0, 1, 9];

static FORGET_0: [u8; 9] = [0, 0, 0, 5, 10, 0, 0, 0, 0];

/// An invocation of class 0 on key 7, without arguments.
static INVOKE_0: [u8; 18] = [0, 0, 0, 14, 6, 0, 0, 0, 0, 0, 0, 0, 0, 0, 0, 0, 7, 0];

/// Returns a stream of two rounds. The first defines Plus, invokes it, forgets it, and invokes it again.
/// The second forgets class 0 once more, and defines Plus again.
fn forgotten(alloc: Global) -> Result<Vec<u8>, AllocError> {
    let plus = rows::plus(alloc)?;
    let mut input = defined(alloc, &plus, &VERSION)?;
    for frame in [&INVOKE_0[..], &FORGET_0, &INVOKE_0, &ROUND_END, &FORGET_0] {
        input.extend_from_slice(frame)?;
    }
    define(&mut input, &plus)?;
    input.extend_from_slice(&ROUND_END)?;
    Ok(input)
}

#[test]
fn a_forgotten_class_has_no_number(rt: HostRuntime) -> Result<(), Fail> {
    let input = forgotten(rt.alloc())?;
    assert!(rt; comes_to(&rt, rt.alloc(), &input, Protocol::Two, None, &[
        0, 0, 0, 13, 1, 0, 0, 0, 0, 0, 0, 0, 14, 0, 0, 0, 0, //
        0, 0, 0, 5, 10, 0, 0, 0, 2, //
        0, 0, 0, 3, 6, 1, 3, //
        0, 0, 0, 1, 3, //
        0, 0, 0, 2, 8, 1, //
        0, 0, 0, 1, 9, //
        0, 0, 0, 2, 8, 1, //
        0, 0, 0, 13, 1, 0, 0, 0, 1, 0, 0, 0, 14, 0, 0, 0, 0, //
        0, 0, 0, 1, 9,
    ]));
    Ok(())
}

#[test]
fn protocol_1_has_no_such_requests(rt: HostRuntime) -> Result<(), Fail> {
    for frame in [&VERSION[..], &FORGET_0] {
        let fault = Some(ServeFault::Malformed);
        assert!(rt; comes_to(&rt, rt.alloc(), frame, Protocol::One, fault, &[]));
    }
    Ok(())
}
