//! Constants of the library (JVMS §6.5, `getstatic`).

ghost use Rattle.interpreter.specs.Holds.{Keeps};
ghost use Rattle.interpreter.specs.Acts.{CanTake, Takes, boolean_pushed};

use crate::machine::Machine;
use jtypes::{Outcome, RefValue};

/// Pushes `Boolean.TRUE` or `Boolean.FALSE`.
pub fn push_boolean(machine: &mut Machine, value: bool) -> Result<(), Outcome>
    requires { CanTake (boolean_pushed value) machine.old }
    ensures told { Takes (boolean_pushed value) machine.old machine.new result }
    ensures keeps { Keeps machine.old machine.new }
{
    machine.slots.push_reference(RefValue::Boolean(value));
    Ok(())
}
