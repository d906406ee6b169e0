//! Concurrent calls of one round.

use super::holding::Holding;
use super::{ROUND_END, defined, returned, serve_beside};
use rowclasses as rows;
use serve::{ServeFault, Settings};
use std::alloc::{AllocError, Global};
use std::sync::Wait;
use std::test::Fail;
use std::thread::Threads;
use std::time::Clock;
use wire::Protocol;

/// Appends an invocation of class 0 on a key, with the argument `by`.
fn invoke(input: &mut Vec<u8>, key: u8, by: u8) -> Result<(), AllocError> {
    input.extend_from_slice(&[
        0, 0, 0, 0x17, 6, 0, 0, 0, 0, 0, 0, 0, 0, 0, 0, 0, key, 1, 1, 0, 0, 0, 0, 0, 0, 0, by,
    ])
}

/// Returns the definition of Counter and a round end.
fn counter_defined(alloc: Global) -> Result<Vec<u8>, AllocError> {
    let counter = rows::counter(alloc)?;
    defined(alloc, &counter, &ROUND_END)
}

/// Returns the definition of Counter, a round end, two invocations on two stripes, and a round end.
fn two_calls(alloc: Global) -> Result<Vec<u8>, AllocError> {
    let mut input = counter_defined(alloc)?;
    invoke(&mut input, 0, 1)?;
    invoke(&mut input, 1, 2)?;
    input.extend_from_slice(&ROUND_END)?;
    Ok(input)
}

/// Checks that the invocations returned 1 and 2, in this order.
fn both_returned(output: &[u8]) -> bool {
    // The first 22 bytes are the reply to the definition and the end of its round.
    output.len() == 57 && &output[22..37] == &returned(1)[..] && &output[37..52] == &returned(2)[..]
}

/// Serves a stream of two calls with this share of instructions a worker.
/// Returns the fault, whether the blocked call saw the answer to the other, and whether the calls returned 1 and 2.
fn met<R: Threads + Wait + Clock + Sync + AllocGlobal>(
    rt: &R,
    alloc: Global,
    input: &[u8],
    share: u32,
) -> (Option<ServeFault>, bool, bool) {
    let gate = Holding::new(rt, 0, 1);
    let settings = Settings {
        workers: 2,
        stripes: 2,
        share,
        protocol: Protocol::One,
    };
    let ended = serve_beside(rt, alloc, input, settings, &gate);
    (ended.fault, gate.saw(), both_returned(&ended.output))
}

#[test]
fn two_stripes_work_at_once(rt: HostRuntime) -> Result<(), Fail> {
    let input = two_calls(rt.alloc())?;
    assert_eq!(rt; met(&rt, rt.alloc(), &input, 0), (None, true, true));
    Ok(())
}

/// A share below the bound on steps of Counter.
const FEW: u32 = 10;

#[test]
fn two_stripes_work_at_once_where_each_call_is_worth_a_worker(rt: HostRuntime) -> Result<(), Fail> {
    let input = two_calls(rt.alloc())?;
    assert_eq!(rt; met(&rt, rt.alloc(), &input, FEW), (None, true, true));
    Ok(())
}
