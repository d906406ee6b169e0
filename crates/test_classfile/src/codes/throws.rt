//! Throws of new exceptions, and the constants of `java.lang.Boolean`.

use super::{has_second, refusal};
use constpool::{Pool, read_pool};
use decode::*;
use jtypes::{Exception, Pushed, Refusal};
use std::alloc::{AllocError, Global};
use std::process::Abort;
use std::test::Fail;

/// The parts of a constant pool with an exception, its two constructors, a text, `Boolean.TRUE` and `FALSE`, and what is none of these.
static POOL: [&[u8]; 25] = [
    &[0, 25],
    b"\x01\x00\x1fjava/lang/IllegalStateException", // 1
    &[7, 0, 1], // 2: the class
    b"\x01\x00\x06<init>", // 3
    b"\x01\x00\x03()V", // 4
    &[12, 0, 3, 0, 4], // 5: a name and a descriptor
    &[10, 0, 2, 0, 5], // 6: a constructor
    b"\x01\x00\x15(Ljava/lang/String;)V", // 7
    &[12, 0, 3, 0, 7], // 8: a name and a descriptor
    &[10, 0, 2, 0, 8], // 9: a constructor
    b"\x01\x00\x04full", // 10
    &[8, 0, 10], // 11: the text
    b"\x01\x00\x11java/lang/Boolean", // 12
    &[7, 0, 12], // 13: the class
    b"\x01\x00\x04TRUE", // 14
    b"\x01\x00\x13Ljava/lang/Boolean;", // 15
    &[12, 0, 14, 0, 15], // 16: a name and a descriptor
    &[9, 0, 13, 0, 16], // 17: a field
    b"\x01\x00\x05FALSE", // 18
    &[12, 0, 18, 0, 15], // 19: a name and a descriptor
    &[9, 0, 13, 0, 19], // 20: a field
    &[9, 0, 2, 0, 16], // 21: a field
    b"\x01\x00\x0fjava/lang/Error", // 22
    &[7, 0, 22], // 23: the class
    &[10, 0, 23, 0, 5], // 24: a constructor
];

/// Returns the constant pool.
fn bytes_of_pool(alloc: Global) -> Result<Vec<u8>, AllocError> {
    let mut bytes = Vec::new(alloc);
    for part in &POOL {
        bytes.extend_from_slice(part)?;
    }
    Ok(bytes)
}

fn throwing_pool(rt: &(impl Abort + AllocGlobal)) -> Result<Pool, Fail> {
    let bytes = bytes_of_pool(rt.alloc())?;
    match read_pool(rt.alloc(), &bytes) {
        Ok((pool, _)) => Ok(pool),
        Err(_) => panic!(rt; "no pool"),
    }
}

/// Decodes an instruction between two `nop`s.
fn between(rt: &HostRuntime, pool: &Pool, bytes: &[u8]) -> Result<Option<Code>, Fail> {
    let mut whole = Vec::new(rt.alloc());
    whole.push(0x00)?;
    whole.extend_from_slice(bytes)?;
    whole.push(0x00)?;
    Ok(decode(rt.alloc(), &whole, pool).ok())
}

/// The accepted forms: without a text, with one by `ldc`, and with one by `ldc_w`.
static FORMS: [(&[u8], u16); 3] = [
    (&[0xBB, 0, 2, 0x59, 0xB7, 0, 6, 0xBF], 0),
    (&[0xBB, 0, 2, 0x59, 0x12, 11, 0xB7, 0, 9, 0xBF], 11),
    (&[0xBB, 0, 2, 0x59, 0x13, 0, 11, 0xB7, 0, 9, 0xBF], 11),
];

#[test]
fn reads_throws(rt: HostRuntime) -> Result<(), Fail> {
    let pool = throwing_pool(&rt)?;
    for (bytes, text) in FORMS {
        let code = between(&rt, &pool, bytes)?;
        let want = Instruction::Throw(Exception::IllegalState, text);
        assert!(rt; has_second(&code, &want, 1 + bytes.len()), "{bytes:?}");
    }
    Ok(())
}

#[test]
fn refuses_cut_throws(rt: HostRuntime) -> Result<(), Fail> {
    let pool = throwing_pool(&rt)?;
    for (bytes, _) in FORMS {
        for end in 1..bytes.len() {
            let got = refusal(&rt, &pool, &bytes[..end]);
            assert_eq!(rt; got, Some(Refusal::BadOperand), "{bytes:?} {end}");
        }
    }
    Ok(())
}

/// Uses of `new` that aren't the throw of an exception of the profile.
static OTHER_USES: [&[u8]; 9] = [
    // An exception that isn't thrown, isn't duplicated, or is another class.
    &[0xBB, 0, 2, 0x59, 0xB7, 0, 6, 0xB0],
    &[0xBB, 0, 2, 0x00, 0xB7, 0, 6, 0xBF],
    &[0xBB, 0, 23, 0x59, 0xB7, 0, 24, 0xBF],
    // The constructor of another class, with a text where it takes none, and without one where it takes one.
    &[0xBB, 0, 2, 0x59, 0xB7, 0, 24, 0xBF],
    &[0xBB, 0, 2, 0x59, 0x12, 11, 0xB7, 0, 6, 0xBF],
    &[0xBB, 0, 2, 0x59, 0xB7, 0, 9, 0xBF],
    // A text that is no `String`, and another instruction in its place.
    &[0xBB, 0, 2, 0x59, 0x12, 10, 0xB7, 0, 9, 0xBF],
    &[0xBB, 0, 2, 0x59, 0x01, 0xB7, 0, 9, 0xBF, 0, 0],
    // A call of another kind.
    &[0xBB, 0, 2, 0x59, 0x12, 11, 0xB6, 0, 9, 0xBF],
];

#[test]
fn refuses_other_uses_of_new(rt: HostRuntime) -> Result<(), Fail> {
    let pool = throwing_pool(&rt)?;
    for bytes in OTHER_USES {
        let got = refusal(&rt, &pool, bytes);
        assert_eq!(rt; got, Some(Refusal::OutsideProfile(0xBB)), "{bytes:?}");
    }
    // The index isn't that of a class.
    let got = refusal(&rt, &pool, &[0xBB, 0, 1, 0x59, 0xB7, 0, 6, 0xBF]);
    assert_eq!(rt; got, Some(Refusal::BadOperand));
    Ok(())
}

#[test]
fn refuses_branches_into_a_throw(rt: HostRuntime) -> Result<(), Fail> {
    let pool = throwing_pool(&rt)?;
    // `ifeq` to the `dup`, and to the end of the throw, which has no instruction.
    for (offset, want) in [(6, Some(Refusal::BadTarget)), (3, None)] {
        let bytes = [0x99, 0, offset, 0xBB, 0, 2, 0x59, 0xB7, 0, 6, 0xBF];
        assert_eq!(rt; refusal(&rt, &pool, &bytes), want, "{offset}");
    }
    Ok(())
}

#[test]
fn reads_constants_of_boolean(rt: HostRuntime) -> Result<(), Fail> {
    let pool = throwing_pool(&rt)?;
    for (index, value) in [(17, true), (20, false)] {
        let code = between(&rt, &pool, &[0xB2, 0, index])?;
        let want = Instruction::Push(Pushed::Boolean(value));
        assert!(rt; has_second(&code, &want, 4), "{index}");
    }
    // The field of another class, and an index that isn't that of a field.
    let other = refusal(&rt, &pool, &[0xB2, 0, 21]);
    assert_eq!(rt; other, Some(Refusal::OutsideProfile(0xB2)));
    let none = refusal(&rt, &pool, &[0xB2, 0, 6]);
    assert_eq!(rt; none, Some(Refusal::BadOperand));
    Ok(())
}
