//! Exceptions that a processor throws itself, and their texts.

use embedded::{CallNumbers, DoneNumbers, Engine, define, invoke, write_text};
use rowclasses::{self as rows, CONSTRUCTOR, Constant, bytes_of, process};
use std::alloc::{AllocError, Global};
use std::test::Fail;

/// The entries at the indexes from 55 on: an exception, its two constructors, and a text.
static THROWN: [Constant; 8] = [
    Constant::Utf8(b"java/lang/IllegalStateException"),
    Constant::Class(55),
    Constant::Utf8(b"(Ljava/lang/String;)V"),
    Constant::NameAndType(7, 57),
    Constant::Methodref(56, 58),
    Constant::Utf8(b"full"),
    Constant::String(60),
    Constant::Methodref(56, 9),
];

/// The index of the text.
const TEXT: u16 = 61;

/// `throw new IllegalStateException("full")`
static WITH_TEXT: [u8; 10] = [0xBB, 0, 56, 0x59, 0x12, 61, 0xB7, 0, 59, 0xBF];

/// `throw new IllegalStateException()`
static WITHOUT: [u8; 8] = [0xBB, 0, 56, 0x59, 0xB7, 0, 62, 0xBF];

/// Returns the class whose `process` has this code.
fn throwing(alloc: Global, code: &[u8]) -> Result<Vec<u8>, AllocError> {
    bytes_of(alloc, &THROWN, &CONSTRUCTOR, &[process(3, 3, code)])
}

/// Defines a class that throws with a text, one that throws without, and NestFault, which divides by zero, in this order.
fn keep_classes(alloc: Global, engine: &mut Engine) -> Result<(), Fail> {
    define(alloc, engine, &throwing(alloc, &WITH_TEXT)?);
    define(alloc, engine, &throwing(alloc, &WITHOUT)?);
    let divides = rows::class_named(alloc, "NestFault")?;
    define(alloc, engine, &divides.unwrap_or(Vec::new(alloc)));
    Ok(())
}

/// Runs class `number` on key 7 with the entry 41.
fn run(engine: &mut Engine, number: u32) -> DoneNumbers {
    let call = CallNumbers {
        number,
        present: 1,
        key: 7,
        before: 41,
    };
    invoke(engine, &call, &[])
}

/// Returns the end of a run that threw exception `value` after so many steps.
fn threw(value: i64, text: i32, steps: u32) -> DoneNumbers {
    DoneNumbers {
        outcome: 3,
        effect: 0,
        value,
        put: 0,
        steps,
        words: 0,
        left: 0,
        text,
    }
}

#[test]
fn an_exception_has_the_index_of_its_text(rt: HostRuntime) -> Result<(), Fail> {
    let alloc = rt.alloc();
    let mut engine = Engine::new(alloc)?;
    keep_classes(alloc, &mut engine)?;
    assert_eq!(rt; run(&mut engine, 0), threw(9, i32::from(TEXT), 1));
    assert_eq!(rt; run(&mut engine, 1), threw(9, -1, 1));
    assert_eq!(rt; run(&mut engine, 2), threw(1, 0, 10));
    Ok(())
}

#[test]
fn a_text_is_that_of_its_index_and_class(rt: HostRuntime) -> Result<(), Fail> {
    let alloc = rt.alloc();
    let mut engine = Engine::new(alloc)?;
    keep_classes(alloc, &mut engine)?;
    let text = u32::from(TEXT);
    assert!(rt; engine.text(0, text) == Some(&b"full"[..]));
    // Another constant, no index of the constant pool, no index of 16 bits, and -1.
    for index in [text - 1, text + 1, 0, 100, text + (1 << 16), u32::MAX] {
        assert!(rt; engine.text(0, index).is_none(), "{index}");
    }
    // A class without a `String` at the index, and numbers without a class.
    for number in [2, 3, u32::MAX] {
        assert!(rt; engine.text(number, text).is_none(), "{number}");
    }
    engine.forget(0);
    assert!(rt; engine.text(0, text).is_none());
    Ok(())
}

/// Writes the text of class 0 to a buffer of `room` bytes, and returns the length and the buffer.
fn written(
    alloc: Global,
    engine: &Engine,
    index: u32,
    room: usize,
) -> Result<(usize, Vec<u8>), AllocError> {
    let mut buffer = vec![in alloc; b'x'; room]?;
    let length = write_text(engine, 0, index, &mut buffer);
    Ok((length, buffer))
}

#[test]
fn a_text_is_cut_to_the_room(rt: HostRuntime) -> Result<(), Fail> {
    let alloc = rt.alloc();
    let mut engine = Engine::new(alloc)?;
    keep_classes(alloc, &mut engine)?;
    for buffer in [&b""[..], b"f", b"ful", b"full", b"fullxx"] {
        let (length, found) = written(alloc, &engine, u32::from(TEXT), buffer.len())?;
        assert!(rt; length == 4 && found.as_slice() == buffer, "{length}");
    }
    let (length, found) = written(alloc, &engine, 0, 3)?;
    assert!(rt; length == 0 && found.as_slice() == &b"xxx"[..]);
    Ok(())
}
