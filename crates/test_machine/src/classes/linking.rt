//! Verified classes, with their bounds and their linked code.

use super::class_named;
use jtypes::{Binary, Comparison, Native, RefType, Refusal};
use rowclasses as rows;
use std::test::Fail;
use verify::{Verified, is_checked, verify};
use vmcode::{Keys, LinkedSwitch, StackInstr};

/// Returns the stack instruction with this index.
fn linked_at(class: &Verified, number: usize) -> Option<StackInstr> {
    class.linked().code.get(number).copied()
}

/// Returns the index of the first stack instruction of this method.
fn start_of(class: &Verified, number: usize) -> Option<u32> {
    Some(class.linked().methods.get(number)?.start)
}

/// Returns the bounds of a class: steps, words, slots and depth.
fn bounds_of(class: &Verified) -> (u32, u32, u32, u32) {
    let bounds = class.bounds();
    (bounds.steps, bounds.words, bounds.slots, bounds.depth)
}

/// Returns the start index of `process`, and the numbers of its parameters and its local variables.
fn process_of(class: &Verified) -> (u32, u16, u16) {
    let process = class.linked().process;
    (process.start, process.params, process.locals)
}

/// The stack code of Plus.
static PLUS: [StackInstr; 14] = [
    StackInstr::LoadReference(1),
    StackInstr::CallLibrary(Native::GetValue),
    StackInstr::CheckCast(RefType::Long),
    StackInstr::CallLibrary(Native::LongValue),
    StackInstr::PushLong(1),
    StackInstr::OnLongs(Binary::Add),
    StackInstr::StoreLong(3),
    StackInstr::LoadReference(1),
    StackInstr::LoadLong(3),
    StackInstr::CallLibrary(Native::LongValueOf),
    StackInstr::CallLibrary(Native::SetValue),
    StackInstr::LoadLong(3),
    StackInstr::CallLibrary(Native::LongValueOf),
    StackInstr::ReturnReference,
];

#[test]
fn plus_is_verified(rt: HostRuntime) {
    let Some(class) = class_named(rt.alloc(), "Plus") else {
        panic!(rt; "plus is refused");
    };
    is_checked(&class);
    assert_eq!(rt; bounds_of(&class), (14, 0, 9, 1));
    assert!(rt; class.linked().code.as_slice() == &PLUS[..]);
    assert_eq!(rt; process_of(&class), (0, 3, 5));
}

#[test]
fn branches_lead_to_numbers(rt: HostRuntime) {
    let Some(class) = class_named(rt.alloc(), "Counter") else {
        panic!(rt; "counter is refused");
    };
    for (number, linked) in [
        (2, Some(StackInstr::IfZero(Comparison::Equal, 8))),
        (7, Some(StackInstr::Goto(9))),
        (8, Some(StackInstr::PushLong(0))),
        (25, None),
    ] {
        assert!(rt; linked_at(&class, number) == linked);
    }
}

/// Checks that a switch has these keys and these branch targets, by index, the default first.
fn leads(switch: Option<&LinkedSwitch>, keys: &[i32], targets: &[u32]) -> bool {
    match switch {
        Some(
            LinkedSwitch {
                keys: Keys::Listed(listed),
                targets: found,
            },
        ) => listed.as_slice() == keys && found.as_slice() == targets,
        _ => false,
    }
}

#[test]
fn switches_stand_beside_the_code(rt: HostRuntime) {
    let Some(class) = class_named(rt.alloc(), "Look") else {
        panic!(rt; "the class is refused");
    };
    assert!(rt; linked_at(&class, 5) == Some(StackInstr::Switch(0)));
    assert!(rt; leads(class.linked().switches.get(0), &[-5, 9], &[11, 6, 9]));
    assert!(rt; class.linked().switches.get(1).is_none());
}

#[test]
fn calls_name_methods_by_their_numbers(rt: HostRuntime) {
    let Some(class) = class_named(rt.alloc(), "NestFault") else {
        panic!(rt; "the class is refused");
    };
    assert!(rt; linked_at(&class, 6) == Some(StackInstr::CallStatic(2)));
    for (method, start) in [(1, Some(0)), (2, Some(9)), (3, None)] {
        assert_eq!(rt; start_of(&class, method), start);
    }
}

#[test]
fn process_may_stand_behind_another(rt: HostRuntime) {
    let Some(class) = class_named(rt.alloc(), "Bridge") else {
        panic!(rt; "the class is refused");
    };
    assert_eq!(rt; class.linked().process.start, 3);
    assert!(rt; linked_at(&class, 6) == Some(StackInstr::CallInstance(1)));
}

#[test]
fn a_class_is_refused(rt: HostRuntime) -> Result<(), Fail> {
    let bytes = rows::falls(rt.alloc())?;
    assert_eq!(rt; verify(rt.alloc(), &bytes).err(), Some(Refusal::FallsOff));
    Ok(())
}
