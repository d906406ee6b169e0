//! Invocations on entries, with each outcome and effect.

use embedded::{ArgNumbers, CallNumbers, DoneNumbers, Engine, define, invoke, not_run};
use rowclasses::{self as rows, class_of, process};
use std::alloc::Global;
use std::test::Fail;

/// The kind of a null argument. The kinds of a `Long`, an `Integer` and a `Boolean` follow.
const NULL: u32 = 0;

const LONG: u32 = 1;

const INTEGER: u32 = 2;

const BOOLEAN: u32 = 7;

fn arg(kind: u32, value: i64) -> ArgNumbers {
    ArgNumbers {
        kind,
        unused: 0,
        value,
    }
}

/// Returns an invocation of class `number` on key 7, with the entry `before`.
fn on(number: u32, before: i64) -> CallNumbers {
    CallNumbers {
        number,
        present: 1,
        key: 7,
        before,
    }
}

/// Returns the result of an invocation that doesn't touch its entry.
fn kept(outcome: u32, value: i64, steps: u32) -> DoneNumbers {
    DoneNumbers {
        outcome,
        effect: 0,
        value,
        put: 0,
        steps,
        words: 0,
        left: 0,
        text: 0,
    }
}

/// Defines Plus, a class that returns its second argument, SetRemove and NestFault, in this order.
fn keep_classes(alloc: Global, engine: &mut Engine) -> Result<(), Fail> {
    let second = class_of(alloc, &[process(2, 3, &[0x2C, 0x04, 0x32, 0xB0])])?;
    define(alloc, engine, &rows::plus(alloc)?);
    define(alloc, engine, &second);
    for name in ["SetRemove", "NestFault"] {
        let bytes = rows::class_named(alloc, name)?.unwrap_or(Vec::new(alloc));
        define(alloc, engine, &bytes);
    }
    Ok(())
}

#[test]
fn effects_are_those_of_the_class(rt: HostRuntime) -> Result<(), Fail> {
    let alloc = rt.alloc();
    let mut engine = Engine::new(alloc)?;
    keep_classes(alloc, &mut engine)?;
    let made = DoneNumbers {
        effect: 1,
        put: 42,
        left: 1,
        ..kept(1, 42, 14)
    };
    assert_eq!(rt; invoke(&mut engine, &on(0, 41), &[]), made);
    let removed = invoke(&mut engine, &on(2, 5), &[]);
    assert_eq!(rt; (removed.value, removed.effect, removed.left), (3, 2, 2));
    let absent = CallNumbers {
        present: 0,
        ..on(2, 5)
    };
    let never_there = invoke(&mut engine, &absent, &[]);
    assert_eq!(rt;
        (never_there.value, never_there.effect, never_there.left),
        (2, 0, 2)
    );
    assert_eq!(rt; invoke(&mut engine, &on(3, 41), &[]), kept(3, 1, 10));
    Ok(())
}

#[test]
fn arguments_are_in_order(rt: HostRuntime) -> Result<(), Fail> {
    let alloc = rt.alloc();
    let mut engine = Engine::new(alloc)?;
    keep_classes(alloc, &mut engine)?;
    for (kind, value) in [
        (NULL, 0),
        (LONG, i64::MIN),
        (INTEGER, i64::from(i32::MIN)),
        (INTEGER, i64::from(i32::MAX)),
        (BOOLEAN, 0),
        (BOOLEAN, 1),
    ] {
        let args = [arg(LONG, 1), arg(kind, value)];
        assert_eq!(rt;
            invoke(&mut engine, &on(1, 41), &args),
            kept(kind, value, 4)
        );
    }
    Ok(())
}

#[test]
fn calls_that_are_not_run(rt: HostRuntime) -> Result<(), Fail> {
    let alloc = rt.alloc();
    let mut engine = Engine::new(alloc)?;
    keep_classes(alloc, &mut engine)?;
    let nine = [arg(LONG, 1); 9];
    assert_eq!(rt; invoke(&mut engine, &on(4, 41), &nine), not_run(4));
    assert_eq!(rt; invoke(&mut engine, &on(1, 41), &nine), not_run(5));
    assert_eq!(rt; invoke(&mut engine, &on(1, 41), &nine[..8]), kept(1, 1, 4));
    for wrong in [
        arg(3, 1),
        arg(INTEGER, 1 << 31),
        arg(INTEGER, -(1 << 31) - 1),
        arg(6, 1),
        arg(BOOLEAN, 2),
        arg(BOOLEAN, -1),
    ] {
        assert_eq!(rt;
            invoke(&mut engine, &on(1, 41), &[wrong, arg(LONG, 1)]),
            not_run(6)
        );
        assert_eq!(rt; invoke(&mut engine, &on(4, 41), &[wrong]), not_run(4));
    }
    engine.forget(1);
    assert_eq!(rt; invoke(&mut engine, &on(1, 41), &nine[..2]), not_run(4));
    Ok(())
}
