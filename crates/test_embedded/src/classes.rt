//! Classes that are defined and forgotten, and their explanations.

use embedded::{Engine, VerdictNumbers, define};
use explain_text::{explanation, write_explanation};
use rowclasses as rows;
use std::test::Fail;

/// The SHA-1 of the class file of Plus, and below that of Falls, from another program.
const PLUS_ID: [u8; 20] = [
    0x98, 0xFA, 0x99, 0x61, 0x67, 0x75, 0x41, 0x8A, 0x8F, 0x25, 0x9D, 0x26, 0x27, 0x75, 0x9F, 0xB0,
    0x58, 0xF1, 0xC7, 0xA5,
];

const FALLS_ID: [u8; 20] = [
    0xFB, 0x81, 0x29, 0x02, 0xF3, 0x90, 0xA8, 0x7B, 0xBF, 0x36, 0xAB, 0xFF, 0x67, 0x4D, 0x73, 0x41,
    0x88, 0x75, 0x8D, 0x29,
];

/// Returns the verdict on Plus, defined with this number.
fn plus_is(number: u32) -> VerdictNumbers {
    VerdictNumbers {
        refusal: 0,
        detail: 0,
        number,
        steps: 14,
        words: 0,
        slots: 9,
        depth: 1,
        id: PLUS_ID,
    }
}

/// The verdict on Falls: refusal 23, `FallsOff`.
const FALLS: VerdictNumbers = VerdictNumbers {
    refusal: 23,
    detail: 0,
    number: 0,
    steps: 0,
    words: 0,
    slots: 0,
    depth: 0,
    id: FALLS_ID,
};

#[test]
fn numbers_are_given_once(rt: HostRuntime) -> Result<(), Fail> {
    let alloc = rt.alloc();
    let (plus, falls) = (rows::plus(alloc)?, rows::falls(alloc)?);
    let mut engine = Engine::new(alloc)?;
    assert_eq!(rt; define(alloc, &mut engine, &plus), plus_is(0));
    assert_eq!(rt; define(alloc, &mut engine, &falls), FALLS);
    assert_eq!(rt; define(alloc, &mut engine, &plus), plus_is(1));
    assert!(rt; engine.forget(1));
    assert!(rt; !engine.forget(1));
    assert!(rt; !engine.forget(2));
    assert_eq!(rt; define(alloc, &mut engine, &plus), plus_is(2));
    assert!(rt; engine.has(0) && !engine.has(1) && engine.has(2) && !engine.has(3));
    Ok(())
}

#[test]
fn a_detail_is_the_place(rt: HostRuntime) -> Result<(), Fail> {
    let alloc = rt.alloc();
    let mut engine = Engine::new(alloc)?;
    let verdict = define(alloc, &mut engine, &rows::mixed(alloc)?);
    assert_eq!(rt; (verdict.refusal, verdict.detail), (22, 1));
    Ok(())
}

#[test]
fn a_class_is_explained(rt: HostRuntime) -> Result<(), Fail> {
    let alloc = rt.alloc();
    let accepted = explanation(alloc, &rows::plus(alloc)?)?;
    assert!(rt;
        accepted
            .as_str()
            .starts_with("accepted steps=14 words=0 slots=9 depth=1\nmethod ")
    );
    let refused = explanation(alloc, &rows::mixed(alloc)?)?;
    assert!(rt;
        refused
            .as_str()
            .starts_with("refused 22 TypeMismatch at 1\nmethod ")
    );
    Ok(())
}

#[test]
fn an_explanation_fills_its_room(rt: HostRuntime) -> Result<(), Fail> {
    let alloc = rt.alloc();
    let bytes = rows::plus(alloc)?;
    let text = explanation(alloc, &bytes)?;
    let mut room = [b'x'; 8];
    assert_eq!(rt; write_explanation(alloc, &bytes, &mut room), text.len());
    assert!(rt; &room == b"accepted");
    assert_eq!(rt; write_explanation(alloc, &[], &mut room), 77);
    Ok(())
}
