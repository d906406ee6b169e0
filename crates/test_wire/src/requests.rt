//! Reading of requests.

mod hands;
mod readers;
mod second;

use jtypes::Arg;
use std::alloc::{AllocError, Global};
use std::test::Fail;
use wire::{Counted, Protocol, Request, WireFault, read_request};

type Answer = Result<Option<Request>, WireFault>;

/// The result of a read. A definition or an invocation is `WithRows`, without its contents.
#[derive(Clone, Copy, Debug, PartialEq, Eq)]
enum Told {
    End,
    RoundEnd,
    Put(i64, i64),
    Get(i64),
    Remove(i64),
    Contains(i64),
    WithRows,
    Fault(WireFault),
}

fn front_of(answer: &Answer) -> Told {
    match answer {
        Ok(None) => Told::End,
        Ok(Some(Request::RoundEnd)) => Told::RoundEnd,
        Ok(Some(Request::Put { key, value })) => Told::Put(*key, *value),
        Ok(Some(Request::Get { key })) => Told::Get(*key),
        Ok(Some(Request::Remove { key })) => Told::Remove(*key),
        Ok(Some(Request::Contains { key })) => Told::Contains(*key),
        Ok(Some(_)) => Told::WithRows,
        Err(fault) => Told::Fault(*fault),
    }
}

/// Reads the next request.
fn next(alloc: Global, reader: &mut Counted<&[u8]>) -> Told {
    front_of(&read_request(alloc, Protocol::One, reader, &mut Vec::new(alloc)))
}

/// Reads the first request of these bytes.
fn read(alloc: Global, bytes: &[u8]) -> Answer {
    read_request(
        alloc,
        Protocol::One,
        &mut Counted::new(bytes),
        &mut Vec::new(alloc),
    )
}

/// Reads the first request of these bytes and its arguments, into a vector that holds another argument before.
fn read_with_args(alloc: Global, bytes: &[u8]) -> Result<(Answer, Vec<Arg>), AllocError> {
    let mut args = Vec::new(alloc);
    args.push(Arg::Integer(77))?;
    let answer = read_request(alloc, Protocol::One, &mut Counted::new(bytes), &mut args);
    Ok((answer, args))
}

/// Six requests: put, round end, get, remove, contains, round end.
static REQUESTS: [u8; 70] = [
    0, 0, 0, 0x11, 2, 0, 0, 0, 0, 0, 0, 0, 5, 0, 0, 0, 0, 0, 0, 0, 1, //
    0, 0, 0, 1, 8, //
    0, 0, 0, 9, 3, 0, 0, 0, 0, 0, 0, 0, 5, //
    0, 0, 0, 9, 4, 255, 255, 255, 255, 255, 255, 255, 254, //
    0, 0, 0, 9, 5, 0x80, 0, 0, 0, 0, 0, 0, 0, //
    0, 0, 0, 1, 8,
];

#[test]
fn requests_are_read_in_order(rt: HostRuntime) {
    let mut reader = Counted::new(&REQUESTS[..]);
    for wanted in [
        Told::Put(5, 1),
        Told::RoundEnd,
        Told::Get(5),
        Told::Remove(-2),
        Told::Contains(i64::MIN),
        Told::RoundEnd,
        Told::End,
    ] {
        assert_eq!(rt; next(rt.alloc(), &mut reader), wanted);
    }
    assert_eq!(rt; reader.failures(), 0);
}

/// Checks that the frame is read as the definition of this class file.
fn is_class(alloc: Global, frame: &[u8], class: &[u8]) -> bool {
    match read(alloc, frame) {
        Ok(Some(Request::Define(bytes))) => bytes.as_slice() == class,
        _ => false,
    }
}

#[test]
fn a_class_is_read_whole(rt: HostRuntime) {
    let frame = [0, 0, 0, 4, 1, 0xCA, 0xFE, 7, 9];
    assert!(rt; is_class(rt.alloc(), &frame, &[0xCA, 0xFE, 7]));
    assert!(rt; is_class(rt.alloc(), &[0, 0, 0, 1, 1], &[]));
}

/// Checks that the frame is read as an invocation of class `of` on the key `on` with these arguments.
fn is_invocation(alloc: Global, frame: &[u8], of: u32, on: i64, arguments: &[Arg]) -> bool {
    match &read_with_args(alloc, frame) {
        Ok((Ok(Some(Request::Invoke { class, key })), args)) => {
            *class == of && *key == on && args.as_slice() == arguments
        }
        _ => false,
    }
}

/// Checks that the frame is read as an invocation of class `of` on the keys `on` with these arguments.
fn is_on_all(alloc: Global, frame: &[u8], of: u32, on: &[i64], arguments: &[Arg]) -> bool {
    match &read_with_args(alloc, frame) {
        Ok((Ok(Some(Request::InvokeAll { class, keys })), args)) => {
            *class == of && keys.as_slice() == on && args.as_slice() == arguments
        }
        _ => false,
    }
}

#[test]
fn invocations_are_read(rt: HostRuntime) {
    let one = [0, 0, 0, 14, 6, 0, 0, 0, 5, 0, 0, 0, 0, 0, 0, 0, 5, 0];
    assert!(rt; is_invocation(rt.alloc(), &one, 5, 5, &[]));
    let two = [
        0, 0, 0, 29, 6, 1, 2, 3, 4, 255, 255, 255, 255, 255, 255, 255, 255, 3, //
        0, //
        1, 0, 0, 0, 1, 0, 0, 0, 0, //
        2, 255, 255, 255, 254,
    ];
    let arguments = [Arg::Null, Arg::Long(0x1_0000_0000), Arg::Integer(-2)];
    assert!(rt; is_invocation(rt.alloc(), &two, 0x0102_0304, -1, &arguments));
    let flags = [0, 0, 0, 16, 6, 0, 0, 0, 5, 0, 0, 0, 0, 0, 0, 0, 5, 2, 3, 4];
    let arguments = [Arg::Boolean(false), Arg::Boolean(true)];
    assert!(rt; is_invocation(rt.alloc(), &flags, 5, 5, &arguments));
}

/// An invocation of class 0 on the keys 1, 2, 2 and 3 without arguments.
static INVOKE_ALL: [u8; 44] = [
    0, 0, 0, 0x28, 7, 0, 0, 0, 0, 0, 4, //
    0, 0, 0, 0, 0, 0, 0, 1, //
    0, 0, 0, 0, 0, 0, 0, 2, //
    0, 0, 0, 0, 0, 0, 0, 2, //
    0, 0, 0, 0, 0, 0, 0, 3, //
    0,
];

#[test]
fn invocations_on_many_keys_are_read(rt: HostRuntime) {
    assert!(rt; is_on_all(rt.alloc(), &INVOKE_ALL, 0, &[1, 2, 2, 3], &[]));
    let no_keys = [0, 0, 0, 9, 7, 0, 0, 1, 0, 0, 0, 1, 0];
    assert!(rt; is_on_all(rt.alloc(), &no_keys, 256, &[], &[Arg::Null]));
}

/// Returns the fault of the first read, `None` if it returns a request or the end of the stream.
fn fault_of(alloc: Global, bytes: &[u8]) -> Option<WireFault> {
    read(alloc, bytes).err()
}

/// Complete frames that encode no request.
static MALFORMED: [&[u8]; 9] = [
    &[0, 0, 0, 0],
    &[0, 0, 0, 1, 10],
    &[0, 0, 0, 1, 0],
    &[0, 0, 0, 2, 8, 0],
    &[0, 0, 0, 1, 7],
    // Nine arguments, and an argument of the unknown kind 5.
    &[
        0, 0, 0, 23, 6, 0, 0, 0, 0, 0, 0, 0, 0, 0, 0, 0, 0, 9, 0, 0, 0, 0, 0, 0, 0, 0, 0,
    ],
    &[0, 0, 0, 15, 6, 0, 0, 0, 0, 0, 0, 0, 0, 0, 0, 0, 0, 1, 5],
    // A key of 7 bytes, and a `Long` argument of one byte.
    &[0, 0, 0, 8, 3, 0, 0, 0, 0, 0, 0, 5],
    &[0, 0, 0, 10, 7, 0, 0, 1, 0, 0, 0, 1, 1, 0],
];

#[test]
fn frames_of_no_request_are_faults(rt: HostRuntime) {
    for frame in MALFORMED {
        assert_eq!(rt; fault_of(rt.alloc(), frame), Some(WireFault::Malformed));
    }
    let long = fault_of(rt.alloc(), &[0, 2, 0, 1]);
    assert_eq!(rt; long, Some(WireFault::TooLong));
    let longest = fault_of(rt.alloc(), &[255, 255, 255, 255, 1]);
    assert_eq!(rt; longest, Some(WireFault::TooLong));
}

/// A put of 1 on key 5.
static PUT: [u8; 21] = [
    0, 0, 0, 17, 2, 0, 0, 0, 0, 0, 0, 0, 5, 0, 0, 0, 0, 0, 0, 0, 1,
];

/// Returns how many proper prefixes of a frame, without the empty one, are read as truncated.
fn cut_fronts(alloc: Global, frame: &[u8]) -> usize {
    let mut count = 0;
    for n in 1..frame.len() {
        if count < n && fault_of(alloc, &frame[..n]) == Some(WireFault::Truncated) {
            count += 1;
        }
    }
    count
}

/// Truncated frames: two of an unknown kind, one with more keys than its length allows, and one with a part of a class file.
/// The read reports that they are truncated.
static CUT: [&[u8]; 4] = [
    &[0, 0, 0, 2, 10],
    &[0, 1, 0, 0, 10, 1],
    &[0, 0, 0, 11, 7, 0, 0, 0, 0, 255, 255, 0],
    &[0, 2, 0, 0, 1, 0xCA],
];

#[test]
fn each_front_of_a_frame_is_cut(rt: HostRuntime) {
    assert_eq!(rt; front_of(&read(rt.alloc(), &[])), Told::End);
    assert_eq!(rt; cut_fronts(rt.alloc(), &PUT), 20);
    assert_eq!(rt; cut_fronts(rt.alloc(), &INVOKE_ALL), 43);
    for frame in CUT {
        assert_eq!(rt; fault_of(rt.alloc(), frame), Some(WireFault::Truncated));
    }
}

/// Returns the length in bytes of the class file that is defined, and the next request.
fn class_and_next(alloc: Global, bytes: &[u8]) -> Option<(usize, Told)> {
    let mut reader = Counted::new(bytes);
    let class = read_request(alloc, Protocol::One, &mut reader, &mut Vec::new(alloc));
    let Ok(Some(Request::Define(class))) = class else {
        return None;
    };
    Some((class.as_slice().len(), next(alloc, &mut reader)))
}

/// Returns how many keys and arguments an invocation of class 0 on several keys has, `None` for any other request.
fn counts_of_all(alloc: Global, bytes: &[u8]) -> Option<(usize, usize)> {
    match &read_with_args(alloc, bytes) {
        Ok((Ok(Some(Request::InvokeAll { class: 0, keys })), args)) => {
            Some((keys.as_slice().len(), args.len()))
        }
        _ => None,
    }
}

/// Returns `head` padded with zeros to 4 + 131,072 bytes, the size of the longest frame, and a round end.
fn longest(alloc: Global, head: &[u8; 11]) -> Result<Vec<u8>, AllocError> {
    let mut bytes = Vec::new(alloc);
    bytes.extend_from_slice(head)?;
    bytes.resize(4 + 131_072, 0)?;
    bytes.extend_from_slice(&[0, 0, 0, 1, 8])?;
    Ok(bytes)
}

#[test]
fn the_longest_frames_are_read(rt: HostRuntime) -> Result<(), Fail> {
    let bytes = longest(rt.alloc(), &[0, 2, 0, 0, 1, 0, 0, 0, 0, 0, 0])?;
    let class = class_and_next(rt.alloc(), &bytes);
    assert_eq!(rt; class, Some((131_071, Told::RoundEnd)));
    Ok(())
}

#[test]
fn no_other_kind_is_as_long(rt: HostRuntime) -> Result<(), Fail> {
    for kind in [3, 7] {
        let bytes = longest(rt.alloc(), &[0, 2, 0, 0, kind, 0, 0, 0, 0, 0, 0])?;
        assert_eq!(rt; fault_of(rt.alloc(), &bytes), Some(WireFault::Malformed));
    }
    Ok(())
}

#[test]
fn as_many_keys_are_read_as_a_frame_has_room_for(rt: HostRuntime) -> Result<(), Fail> {
    // 16,351 keys and no arguments, in 130,816 bytes.
    let bytes = longest(rt.alloc(), &[0, 1, 255, 0, 7, 0, 0, 0, 0, 0x3F, 0xDF])?;
    assert_eq!(rt; counts_of_all(rt.alloc(), &bytes), Some((16_351, 0)));
    Ok(())
}
