//! Writing of replies.

ghost use Rattle.std.specs.Prelude.{IfOk};
ghost use Rattle.wire.specs.Frames.{IsReply};

mod writers;

use jtypes::{Arg, Exception, Items, JavaFault, Outcome, Refusal};
use std::alloc::{AllocError, Global};
use std::test::Fail;
use wire::{Counted, Denial, JobOutcome, Reply, add_result, write_reply};

/// Checks that the reply is written as this frame.
fn is_written(alloc: Global, reply: Reply, frame: &[u8]) -> bool
    requires { IsReply reply }
{
    let mut writer = Counted::new(Vec::new(alloc));
    let result = write_reply(&mut writer, &reply);
    let bytes = writer.into_inner();
    result.is_ok() && bytes.as_slice() == frame
}

#[test]
fn definitions_are_written(rt: HostRuntime) {
    let defined = Reply::Defined {
        class: 0,
        steps: 0x18,
        words: 0,
    };
    let counter = [0, 0, 0, 13, 1, 0, 0, 0, 0, 0, 0, 0, 0x18, 0, 0, 0, 0];
    assert!(rt; is_written(rt.alloc(), defined, &counter));
}

#[test]
fn refusals_are_written(rt: HostRuntime) {
    for (refusal, number, detail) in [
        (Refusal::TypeMismatch(1), 22, 1),
        (Refusal::OutsideProfile(0xCA), 17, 0xCA),
        (Refusal::Recursive, 25, 0),
    ] {
        let frame = [0, 0, 0, 6, 2, number, 0, 0, 0, detail];
        assert!(rt; is_written(rt.alloc(), Reply::Refused(refusal), &frame));
    }
}

#[test]
fn replies_are_written(rt: HostRuntime) {
    assert!(rt; is_written(rt.alloc(), Reply::Done, &[0, 0, 0, 1, 3]));
    assert!(rt; is_written(rt.alloc(), Reply::RoundEnd, &[0, 0, 0, 1, 9]));
    for (flag, byte) in [(true, 1), (false, 0)] {
        assert!(rt; is_written(rt.alloc(), Reply::Flag(flag), &[0, 0, 0, 2, 5, byte]));
    }
}

#[test]
fn values_are_written(rt: HostRuntime) {
    let one = [0, 0, 0, 10, 4, 1, 0, 0, 0, 0, 0, 0, 0, 1];
    assert!(rt; is_written(rt.alloc(), Reply::Value(Some(1)), &one));
    assert!(rt; is_written(rt.alloc(), Reply::Value(None), &[0, 0, 0, 2, 4, 0]));
}

/// Outcomes of an invocation, each with its reply frame.
static OUTCOMES: [(Outcome, &[u8]); 10] = [
    (
        Outcome::Returned(Arg::Long(42)),
        &[0, 0, 0, 11, 6, 0, 1, 0, 0, 0, 0, 0, 0, 0, 0x2A],
    ),
    (
        Outcome::Returned(Arg::Integer(-2)),
        &[0, 0, 0, 7, 6, 0, 2, 255, 255, 255, 254],
    ),
    (Outcome::Returned(Arg::Null), &[0, 0, 0, 3, 6, 0, 0]),
    (
        Outcome::Returned(Arg::Boolean(false)),
        &[0, 0, 0, 3, 6, 0, 3],
    ),
    (
        Outcome::Returned(Arg::Boolean(true)),
        &[0, 0, 0, 3, 6, 0, 4],
    ),
    (Outcome::Threw(JavaFault::ClassCast), &[0, 0, 0, 3, 6, 1, 4]),
    (
        Outcome::Threw(JavaFault::Arithmetic),
        &[0, 0, 0, 3, 6, 1, 1],
    ),
    (
        Outcome::Threw(JavaFault::Thrown(Exception::Arithmetic, 0)),
        &[0, 0, 0, 5, 6, 3, 1, 0, 0],
    ),
    (
        Outcome::Threw(JavaFault::Thrown(Exception::IllegalArgument, 18)),
        &[0, 0, 0, 5, 6, 3, 8, 0, 18],
    ),
    (
        Outcome::Threw(JavaFault::Thrown(Exception::UnsupportedOperation, 0x1234)),
        &[0, 0, 0, 5, 6, 3, 10, 0x12, 0x34],
    ),
];

#[test]
fn the_version_is_written(rt: HostRuntime) {
    let frame = [0, 0, 0, 5, 10, 0, 0, 0, 2];
    assert!(rt; is_written(rt.alloc(), Reply::Version(2), &frame));
}

#[test]
fn outcomes_are_written(rt: HostRuntime) {
    for (outcome, frame) in OUTCOMES {
        assert!(rt; is_written(rt.alloc(), Reply::Result(outcome), frame));
    }
}

/// Checks that `add_result` appends this frame to a buffer that holds one byte.
fn is_added(alloc: Global, outcome: Outcome, frame: &[u8]) -> Result<bool, AllocError> {
    let mut bytes = Vec::new(alloc);
    bytes.push(9)?;
    add_result(&mut bytes, outcome)?;
    Ok(match bytes.as_slice() {
        [9, added @ ..] => added == frame,
        _ => false,
    })
}

#[test]
fn outcomes_are_added_as_they_are_written(rt: HostRuntime) -> Result<(), Fail> {
    for (outcome, frame) in OUTCOMES {
        assert!(rt; is_added(rt.alloc(), outcome, frame)?);
    }
    Ok(())
}

#[test]
fn denials_are_written(rt: HostRuntime) {
    for (denial, number) in [
        (Denial::UnknownClass, 1),
        (Denial::JournalFull, 2),
        (Denial::NoMemory, 3),
        (Denial::TooManyClasses, 4),
        (Denial::TooManyJobs, 5),
    ] {
        let frame = [0, 0, 0, 2, 8, number];
        assert!(rt; is_written(rt.alloc(), Reply::Denied(denial), &frame));
        assert_eq!(rt; denial.number(), number);
    }
}

/// Returns the results of four keys: key 1 returned the `Long` 0, key 2 threw `Arithmetic`, key 3 was denied for out of memory,
/// and the processor of key 4 threw an exception itself, with the text at index 65535.
fn results(alloc: Global) -> Result<Reply, AllocError>
    ensures { IfOk result (λ r. IsReply r) }
{
    let thrown = JavaFault::Thrown(Exception::IllegalState, u16::MAX);
    let jobs = [
        (1, JobOutcome::Ended(Outcome::Returned(Arg::Long(0)))),
        (2, JobOutcome::Ended(Outcome::Threw(JavaFault::Arithmetic))),
        (3, JobOutcome::Denied(Denial::NoMemory)),
        (4, JobOutcome::Ended(Outcome::Threw(thrown))),
    ];
    Ok(Reply::Results(Items::from_slice(alloc, &jobs)?))
}

static RESULTS: [u8; 57] = [
    0, 0, 0, 0x35, 7, 0, 4, //
    0, 0, 0, 0, 0, 0, 0, 1, 0, 1, 0, 0, 0, 0, 0, 0, 0, 0, //
    0, 0, 0, 0, 0, 0, 0, 2, 1, 1, //
    0, 0, 0, 0, 0, 0, 0, 3, 2, 3, //
    0, 0, 0, 0, 0, 0, 0, 4, 3, 9, 255, 255,
];

#[test]
fn results_are_written(rt: HostRuntime) -> Result<(), Fail> {
    assert!(rt; is_written(rt.alloc(), results(rt.alloc())?, &RESULTS));
    let none = Reply::Results(Items::new(Vec::new(rt.alloc())));
    assert!(rt; is_written(rt.alloc(), none, &[0, 0, 0, 3, 7, 0, 0]));
    Ok(())
}

/// Returns the length in bytes of the frame of 4096 results, 0 if the write fails.
fn length_of_most(alloc: Global) -> Result<usize, AllocError> {
    let job = (-1, JobOutcome::Ended(Outcome::Returned(Arg::Long(-1))));
    let most = Reply::Results(Items::new(vec![in alloc; job; 4096]?));
    let mut writer = Counted::new(Vec::new(alloc));
    match write_reply(&mut writer, &most) {
        Ok(()) => Ok(writer.into_inner().len()),
        Err(_) => Ok(0),
    }
}

#[test]
fn the_most_results_are_written(rt: HostRuntime) -> Result<(), Fail> {
    assert_eq!(rt; length_of_most(rt.alloc())?, 7 + 18 * 4096);
    Ok(())
}
