//! Casts (JVMS §6.5, `checkcast` and `instanceof`).

ghost use Rattle.std.specs.Prelude.{◌≡◌};
ghost use Rattle.jtypes.specs.declared.types.RefValue.{RefValue};
ghost use Rattle.arena.specs.Placing.{IsReference};
ghost use Rattle.jtypes.specs.declared.types.Value.{Value};
ghost use Rattle.jtypes.specs.Library.{flag};
ghost use Rattle.verdict.specs.Machine.{may_cast};
ghost use Rattle.interpreter.specs.Holds.{Keeps};
ghost use Rattle.interpreter.specs.Acts.{CanTake, Takes, casted, asked};

use crate::machine::Machine;
use arena::Arena;
use jtypes::{JavaFault, Outcome, RefType, RefValue};
use natives::passes;

/// Returns whether a reference can be cast: it is null or an instance of the target type.
#[inline(always)]
pub fn may_cast(arena: &Arena, value: RefValue, target: RefType) -> bool
    requires { (v : RefValue) × IsReference arena.now.arrays v value }
    ensures { (v : RefValue) → IsReference arena.now.arrays v value → result ≡ may_cast arena.now.arrays v target }
{
    match value {
        RefValue::Null => true,
        _ => passes(arena, value, &target),
    }
}

/// Checks that the topmost reference can be cast, and leaves it on the operand stack; otherwise throws `ClassCast`.
pub fn check_cast(machine: &mut Machine, target: RefType) -> Result<(), Outcome>
    requires { CanTake (casted target) machine.old }
    ensures told { Takes (casted target) machine.old machine.new result }
    ensures keeps { Keeps machine.old machine.new }
{
    let value = machine.slots.top_reference();
    if may_cast(&machine.arena, value, target) {
        Ok(())
    } else {
        Err(Outcome::Threw(JavaFault::ClassCast))
    }
}

/// Returns 1 for true and 0 for false.
fn flag(holds: bool) -> i32
    ensures { Value.Int result ≡ flag holds }
{
    i32::from(holds)
}

/// Pops a reference and pushes 1 if it is an instance of a type, else 0. Null is an instance of no type.
pub fn instance_of(machine: &mut Machine, target: RefType) -> Result<(), Outcome>
    requires { CanTake (asked target) machine.old }
    ensures told { Takes (asked target) machine.old machine.new result }
    ensures keeps { Keeps machine.old machine.new }
{
    let value = machine.slots.pop_reference();
    let is_one = passes(&machine.arena, value, &target);
    machine.slots.push_int(flag(is_one));
    Ok(())
}
