//! Requests that are parsed in the reader's buffer, and requests that are copied first.

use super::{Told, front_of};
use jtypes::Arg;
use std::alloc::{AllocError, Global};
use std::io::BufReader;
use std::test::Fail;
use wire::{
    Ahead, Counted, Invocation, Plain, Protocol, WireFault, invocation_at_hand, read_request,
};

/// The requests and the arguments that are read from a stream.
#[derive(Drop)]
struct Heard {
    told: Vec<Told>,
    args: Vec<Arg>,
}

/// Reads four requests, or up to the end of the stream or a fault.
fn hear<R: Ahead + Drop>(alloc: Global, reader: R) -> Result<Heard, AllocError> {
    let mut reader = Counted::new(reader);
    let mut heard = Heard {
        told: Vec::new(alloc),
        args: Vec::new(alloc),
    };
    let mut args = Vec::new(alloc);
    for _ in 0..4 {
        let told = front_of(&read_request(alloc, Protocol::One, &mut reader, &mut args));
        heard.told.push(told)?;
        if matches!(told, Told::End | Told::Fault(_)) {
            return Ok(heard);
        }
        heard.args.extend_from_slice(args.as_slice())?;
    }
    Ok(heard)
}

fn is_alike(one: &Heard, other: &Heard) -> bool {
    one.told.as_slice() == other.told.as_slice() && one.args.as_slice() == other.args.as_slice()
}

/// An invocation with three arguments, a put, a malformed frame, and a round end.
static FRAMES: [u8; 65] = [
    0, 0, 0, 0x1D, 6, 0, 0, 0, 3, 0, 0, 0, 0, 0, 0, 0, 5, 3, //
    1, 0, 0, 0, 0, 0, 0, 0, 7, 0, 2, 0xFF, 0xFF, 0xFF, 0xFE, //
    0, 0, 0, 0x11, 2, 0, 0, 0, 0, 0, 0, 0, 9, 0, 0, 0, 0, 0, 0, 0, 1, //
    0, 0, 0, 2, 8, 0, 0, 0, 0, 1, 8,
];

#[test]
fn the_frames_are_these(rt: HostRuntime) -> Result<(), Fail> {
    let heard = hear(rt.alloc(), &FRAMES[..])?;
    let told = [
        Told::WithRows,
        Told::Put(9, 1),
        Told::Fault(WireFault::Malformed),
    ];
    assert_eq!(rt; heard.told.as_slice(), told.as_slice());
    let args = heard.args.as_slice();
    assert!(rt; matches!(args, [Arg::Long(7), Arg::Null, Arg::Integer(-2), ..]));
    Ok(())
}

/// The class, the key and the number of arguments of an invocation; `Some(None)` if none is read, `None` when out of memory.
type Taken = Option<Option<(u32, i64, usize)>>;

/// Calls `invocation_at_hand`, and then reads the next request.
fn taken<R: Ahead + Drop>(alloc: Global, reader: R) -> (Taken, Told) {
    let mut reader = Counted::new(reader);
    let mut args = Vec::new(alloc);
    let invocation = match invocation_at_hand(&mut reader, &mut args) {
        Ok(Some(Invocation { class, key })) => Some(Some((class, key, args.len()))),
        Ok(None) => Some(None),
        Err(_) => None,
    };
    (
        invocation,
        front_of(&read_request(alloc, Protocol::One, &mut reader, &mut args)),
    )
}

#[test]
fn an_invocation_at_hand_is_taken(rt: HostRuntime) {
    let both = (Some(Some((3, 5, 3))), Told::Put(9, 1));
    assert_eq!(rt; taken(rt.alloc(), &FRAMES[..]), both);
    let next = (Some(None), Told::Put(9, 1));
    assert_eq!(rt; taken(rt.alloc(), &FRAMES[33..]), next);
    let cut = (Some(None), Told::Fault(WireFault::Truncated));
    assert_eq!(rt; taken(rt.alloc(), &FRAMES[..32]), cut);
    let elsewhere = Plain { inner: &FRAMES[..] };
    assert_eq!(rt; taken(rt.alloc(), elsewhere), (Some(None), Told::WithRows));
}

#[test]
fn each_front_is_read_alike(rt: HostRuntime) -> Result<(), Fail> {
    for count in 0..=FRAMES.len() {
        let front = &FRAMES[..count];
        let copied = hear(rt.alloc(), Plain { inner: front })?;
        assert!(rt; is_alike(&copied, &hear(rt.alloc(), front)?));
        for capacity in [1, 4, 5, 32, 33, 34, 64] {
            let buffered = BufReader::with_capacity(rt.alloc(), capacity, front)?;
            assert!(rt; is_alike(&copied, &hear(rt.alloc(), buffered)?));
        }
    }
    Ok(())
}
