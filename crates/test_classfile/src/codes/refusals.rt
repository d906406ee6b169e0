//! Code that is refused, with the refusal.

use super::{ALONE, SWITCHES, WITH_OPERANDS, each_tag, refusal};
use constpool::Pool;
use decode::*;
use jtypes::Refusal;
use std::alloc::{AllocError, Global};
use std::test::Fail;

/// Returns an index at which `getstatic` finds a field, and `new` a class, in the constant pool `EACH_TAG`.
fn index_for(opcode: u8) -> u8 {
    match opcode {
        0xB2 => 12,
        0xBB => 8,
        _ => 0,
    }
}

#[test]
fn refuses_other_opcodes(rt: HostRuntime) {
    let pool = each_tag(&rt);
    for opcode in 0..=255 {
        let listed = ALONE.iter().any(|row| row.0 == opcode)
            || WITH_OPERANDS
                .iter()
                .any(|row| row.0.first() == Some(&opcode))
            || SWITCHES.iter().any(|bytes| bytes.first() == Some(&opcode));
        if !listed {
            let want = if opcode < 0xCA {
                Refusal::OutsideProfile(opcode)
            } else {
                Refusal::UnknownOpcode
            };
            let bytes = [0, opcode, 0, index_for(opcode), 0, 0];
            assert_eq!(rt; refusal(&rt, &pool, &bytes), Some(want), "at {opcode}");
        }
    }
}

/// Returns a length at which the instruction can be cut without the refusal `BadOperand`.
fn accepted_cut(rt: &HostRuntime, pool: &Pool, bytes: &[u8]) -> Option<usize> {
    (1..bytes.len()).find(|end| refusal(rt, pool, &bytes[..*end]) != Some(Refusal::BadOperand))
}

#[test]
fn refuses_cut_operands(rt: HostRuntime) {
    let pool = each_tag(&rt);
    for (bytes, _) in &WITH_OPERANDS {
        assert_eq!(rt; accepted_cut(&rt, &pool, bytes), None, "of {bytes:?}");
    }
    for bytes in SWITCHES {
        assert_eq!(rt; accepted_cut(&rt, &pool, bytes), None, "of {bytes:?}");
    }
}

/// `ldc`, `ldc_w` and `ldc2_w`, each with the only constant pool index that it accepts.
static CONSTANTS: [(u8, u8); 3] = [(0x12, 2), (0x13, 2), (0x14, 4)];

/// Returns an instruction that pushes the constant at this index. A `nop` follows `ldc`, whose index is one byte.
fn constant_of(opcode: u8, index: u8) -> [u8; 3] {
    if opcode == 0x12 {
        [opcode, index, 0]
    } else {
        [opcode, 0, index]
    }
}

#[test]
fn refuses_constants(rt: HostRuntime) {
    let pool = each_tag(&rt);
    for (opcode, only) in CONSTANTS {
        for index in 0..=21 {
            let want = match index {
                3 | 6 | 8 | 9 | 15 | 16 => Some(Refusal::OutsideProfile(opcode)),
                _ if index == only => None,
                _ => Some(Refusal::BadOperand),
            };
            let got = refusal(&rt, &pool, &constant_of(opcode, index));
            assert_eq!(rt; got, want, "{opcode} {index}");
        }
    }
}

/// Calls and type checks, each with the only constant pool index that it accepts.
static MEMBERS: [(u8, u8); 6] = [
    (0xB6, 13),
    (0xB7, 13),
    (0xB8, 13),
    (0xB9, 14),
    (0xC0, 8),
    (0xC1, 8),
];

#[test]
fn refuses_members(rt: HostRuntime) {
    let pool = each_tag(&rt);
    for (opcode, only) in MEMBERS {
        for index in 0..=21 {
            // The bytes 4 and 0 are operands of `invokeinterface`; after any other opcode they are two instructions.
            let got = refusal(&rt, &pool, &[opcode, 0, index, 4, 0]);
            assert_eq!(rt; got.is_none(), index == only, "{opcode} {index}");
            assert!(rt;
                matches!(got, None | Some(Refusal::BadOperand)),
                "{opcode} {index}"
            );
        }
    }
}

#[test]
fn refuses_counts_and_codes(rt: HostRuntime) {
    let pool = each_tag(&rt);
    let bad = Some(Refusal::BadOperand);
    for (slots, zero) in [(3, 0), (5, 0), (0, 0), (255, 0), (4, 1), (4, 255)] {
        assert_eq!(rt;
            refusal(&rt, &pool, &[0xB9, 0, 14, slots, zero]),
            bad,
            "{slots}, {zero}"
        );
    }
    for (code, want) in [
        (3, bad),
        (4, Some(Refusal::OutsideProfile(0xBC))),
        (9, Some(Refusal::OutsideProfile(0xBC))),
        (10, None),
        (11, None),
        (12, bad),
    ] {
        assert_eq!(rt; refusal(&rt, &pool, &[0xBC, code]), want, "newarray {code}");
    }
}

#[test]
fn refuses_targets(rt: HostRuntime) {
    let pool = each_tag(&rt);
    // `nop`, the branch, `bipush` and `nop`, at pc 0, 1, 4 and 6
    for (high, low, want) in [
        (0x80, 0x00, Some(Refusal::BackwardBranch)),
        (0xFF, 0xFE, Some(Refusal::BackwardBranch)),
        (0xFF, 0xFF, Some(Refusal::BackwardBranch)),
        (0x00, 0x00, Some(Refusal::BackwardBranch)),
        (0x00, 0x01, Some(Refusal::BadTarget)),
        (0x00, 0x03, None),
        (0x00, 0x04, Some(Refusal::BadTarget)),
        (0x00, 0x05, None),
        (0x00, 0x06, Some(Refusal::BadTarget)),
        (0x7F, 0xFF, Some(Refusal::BadTarget)),
    ] {
        for opcode in [0xA7, 0x99, 0xA4, 0xC7] {
            let bytes = [0x00, opcode, high, low, 0x10, 5, 0x00];
            assert_eq!(rt; refusal(&rt, &pool, &bytes), want, "{opcode} {high} {low}");
        }
    }
}

/// Returns a switch at pc 0, with these words after three bytes of padding, and a `nop`.
fn switch_of(alloc: Global, opcode: u8, padding: u8, words: &[i32]) -> Result<Vec<u8>, AllocError> {
    let mut bytes = Vec::new(alloc);
    bytes.extend_from_slice(&[opcode, padding, padding, padding])?;
    for word in words {
        bytes.extend_from_slice(&word.to_be_bytes())?;
    }
    bytes.push(0)?;
    Ok(bytes)
}

/// Switches by their words, with the refusal: the default offset, then the bounds of a `tableswitch` and its offset, or the pairs of a
/// `lookupswitch` after their count. The `nop` is at pc 20, or at pc 28.
static SWITCH_WORDS: [(u8, &[i32], Option<Refusal>); 14] = [
    (0xAA, &[20, 5, 5, 20], None),
    (0xAA, &[20, 6, 5, 20], Some(Refusal::BadOperand)),
    (0xAA, &[20, 5, 6, 20], Some(Refusal::BadOperand)),
    (
        0xAA,
        &[20, -5, 2_147_483_647, 20],
        Some(Refusal::BadOperand),
    ),
    (0xAA, &[0, 5, 5, 20], Some(Refusal::BackwardBranch)),
    (
        0xAA,
        &[20, 5, 5, -2_147_483_648],
        Some(Refusal::BackwardBranch),
    ),
    (0xAA, &[19, 5, 5, 20], Some(Refusal::BadTarget)),
    (0xAA, &[20, 5, 5, 2_147_483_647], Some(Refusal::BadTarget)),
    (0xAB, &[28, 2, -1, 28, 7, 28], None),
    (0xAB, &[28, -1, -1, 28, 7, 28], Some(Refusal::BadOperand)),
    (0xAB, &[28, 2, 7, 28, 7, 28], Some(Refusal::BadOperand)),
    (0xAB, &[28, 2, 7, 28, -1, 28], Some(Refusal::BadOperand)),
    (0xAB, &[28, 2, -1, 28, 7, 27], Some(Refusal::BadTarget)),
    (0xAB, &[28, 2, -1, 0, 7, 28], Some(Refusal::BackwardBranch)),
];

#[test]
fn reads_and_refuses_switches(rt: HostRuntime) -> Result<(), Fail> {
    let pool = each_tag(&rt);
    for (opcode, words, want) in SWITCH_WORDS {
        for padding in [0, 255] {
            let bytes = switch_of(rt.alloc(), opcode, padding, words)?;
            assert_eq!(rt; refusal(&rt, &pool, &bytes), want, "{opcode} {words:?}");
        }
    }
    Ok(())
}

/// Code with several faults, and the refusal that is reported. Branch targets are checked after all instructions are decoded.
static FIRST: [(&[u8], Refusal); 4] = [
    (&[0xCA, 0xC9, 0x12], Refusal::UnknownOpcode),
    (&[0xC9, 0xCA, 0x12], Refusal::OutsideProfile(0xC9)),
    (&[0x12, 0, 0xCA], Refusal::BadOperand),
    (&[0xA7, 0, 9, 0xCA], Refusal::UnknownOpcode),
];

#[test]
fn names_the_first_place(rt: HostRuntime) {
    let pool = each_tag(&rt);
    for (bytes, want) in FIRST {
        assert_eq!(rt; refusal(&rt, &pool, bytes), Some(want), "at {bytes:?}");
    }
}
