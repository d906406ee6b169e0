//! Requests of protocol 2.

use std::alloc::Global;
use wire::{Counted, Protocol, Request, WireFault, read_request};

/// The result of a read. Requests of protocol 1 are `Older`.
#[derive(Clone, Copy, Debug, PartialEq, Eq)]
enum Told {
    End,
    Older,
    Version,
    Forget(u32),
    Fault(WireFault),
}

/// Reads the first request of these bytes in a protocol.
fn read(alloc: Global, protocol: Protocol, bytes: &[u8]) -> Told {
    let mut reader = Counted::new(bytes);
    match read_request(alloc, protocol, &mut reader, &mut Vec::new(alloc)) {
        Ok(None) => Told::End,
        Ok(Some(Request::Version)) => Told::Version,
        Ok(Some(Request::Forget { class })) => Told::Forget(class),
        Ok(Some(_)) => Told::Older,
        Err(fault) => Told::Fault(fault),
    }
}

/// Frames of kinds above 8, each with its reading in protocol 2.
static FRAMES: [(&[u8], Told); 9] = [
    (&[0, 0, 0, 1, 9], Told::Version),
    (&[0, 0, 0, 5, 10, 0, 0, 0, 0], Told::Forget(0)),
    (&[0, 0, 0, 5, 10, 0, 0, 1, 2], Told::Forget(258)),
    (
        &[0, 0, 0, 5, 10, 255, 255, 255, 255],
        Told::Forget(u32::MAX),
    ),
    (&[0, 0, 0, 2, 9, 0], Told::Fault(WireFault::Malformed)),
    (
        &[0, 0, 0, 4, 10, 0, 0, 0],
        Told::Fault(WireFault::Malformed),
    ),
    (
        &[0, 0, 0, 6, 10, 0, 0, 0, 0, 0],
        Told::Fault(WireFault::Malformed),
    ),
    (&[0, 0, 0, 1, 99], Told::Fault(WireFault::Malformed)),
    (&[0, 0, 0, 5, 10, 0], Told::Fault(WireFault::Truncated)),
];

#[test]
fn kinds_above_8_are_read_in_protocol_2(rt: HostRuntime) {
    for (frame, wanted) in FRAMES {
        assert_eq!(rt; read(rt.alloc(), Protocol::Two, frame), wanted);
    }
}

#[test]
fn kinds_above_8_are_malformed_in_protocol_1(rt: HostRuntime) {
    for (frame, wanted) in FRAMES {
        let faulty = match wanted {
            Told::Fault(fault) => fault,
            _ => WireFault::Malformed,
        };
        assert_eq!(rt; read(rt.alloc(), Protocol::One, frame), Told::Fault(faulty));
    }
}

#[test]
fn protocol_2_has_the_requests_of_protocol_1(rt: HostRuntime) {
    for frame in [
        &[0, 0, 0, 1, 8][..],
        &[0, 0, 0, 2, 1, 0xCA],
        &[0, 0, 0, 9, 3, 0, 0, 0, 0, 0, 0, 0, 5],
        &[0, 0, 0, 14, 6, 0, 0, 0, 0, 0, 0, 0, 0, 0, 0, 0, 7, 0],
    ] {
        assert_eq!(rt; read(rt.alloc(), Protocol::One, frame), Told::Older);
        assert_eq!(rt; read(rt.alloc(), Protocol::Two, frame), Told::Older);
    }
    assert_eq!(rt; read(rt.alloc(), Protocol::Two, &[]), Told::End);
}
