//! Operations on the operand stack and the local variables of an invocation.

ghost use Rattle.slots.specs.Reads.{HasRows};

use slots::{Slots, Window};
use std::test::Fail;

/// Pushes an int on the operand stack, and pops it.
fn through_the_operands(slots: &mut Slots, n: i32) -> i32
    requires { HasRows slots.old }
{
    slots.begin(4);
    slots.push_int(n);
    slots.pop_int()
}

/// Passes an int to a called method, which returns the same int. Returns the index at which the caller continues, and the int.
fn call(slots: &mut Slots, n: i32) -> (Option<usize>, i32)
    requires { HasRows slots.old }
{
    slots.begin(4);
    let words = slots.words.as_mut_slice();
    let kinds = slots.kinds.as_mut_slice();
    let mut window = Window {
        words,
        kinds,
        base: slots.base,
        top: slots.top,
    };
    window.push_int(n);
    window.enter(&mut slots.callers, 40, 1, 2);
    window.push_int(n);
    let place = window.leave_int(&mut slots.callers);
    (place, window.pop_int())
}

/// Stores an int in local variable 3, and loads it.
fn through_a_local(slots: &mut Slots, n: i32) -> i32
    requires { HasRows slots.old }
{
    slots.begin(4);
    let words = slots.words.as_mut_slice();
    let kinds = slots.kinds.as_mut_slice();
    let mut window = Window {
        words,
        kinds,
        base: slots.base,
        top: slots.top,
    };
    window.push_int(n);
    window.store_int(3);
    window.load_int(3);
    window.pop_int()
}

#[test]
fn an_int_goes_through_the_operands(rt: HostRuntime) -> Result<(), Fail> {
    let mut slots = Slots::new(rt.alloc())?;
    assert_eq!(rt; through_the_operands(&mut slots, -7), -7);
    Ok(())
}

#[test]
fn an_int_goes_through_a_call(rt: HostRuntime) -> Result<(), Fail> {
    let mut slots = Slots::new(rt.alloc())?;
    assert_eq!(rt; call(&mut slots, -7), (Some(40), -7));
    Ok(())
}

#[test]
fn an_int_goes_through_a_local(rt: HostRuntime) -> Result<(), Fail> {
    let mut slots = Slots::new(rt.alloc())?;
    assert_eq!(rt; through_a_local(&mut slots, -7), -7);
    Ok(())
}
