//! Calls of the cache loader (JSR 107, `CacheLoader`), which a `getValue` of an absent entry may cause.

ghost use Rattle.std.specs.Prelude.{◌≡◌, ℕ};
ghost use Rattle.interpreter.specs.Holds.{AreKept, at_regs};
ghost use Rattle.interpreter.specs.AskLoader.{CanStepWith, Informs, KeepsGiven, CanTell, Tells, TellsAsking};

use crate::machine::Machine;
use jtypes::{JavaFault, LoadFailed, Loader, Native, Outcome, RefValue};
use slots::Slots;
use vmcode::{LinkedClass, StackInstr};

/// Returns whether a stack instruction is a `getValue` whose receiver, the topmost operand, is the entry.
fn gets_value(linked: StackInstr, slots: &Slots) -> bool
    requires { CanTell linked slots.now }
    ensures { Tells linked slots.now result }
{
    match linked {
        StackInstr::CallLibrary(native) => match native {
            Native::GetValue => matches!(slots.top_reference(), RefValue::Entry),
            _ => false,
        },
        _ => false,
    }
}

/// Returns whether the instruction at code index `place` asks the loader.
#[inline(always)]
fn is_asking<L: Loader>(machine: &Machine, class: &LinkedClass, place: usize) -> bool
    requires { (steps : ℕ) × CanStepWith L.ASKS class.now (at_regs machine.now place steps) }
    ensures { (steps : ℕ) → TellsAsking L.ASKS class.now (at_regs machine.now place steps) result }
{
    if !L::ASKS {
        return false;
    }
    if !machine.entry.needs_load() {
        return false;
    }
    gets_value(class.code[place], &machine.slots)
}

/// Asks the loader if the instruction at code index `place` does.
/// A loaded value becomes the entry's value; a failed load throws `CacheLoader`.
#[inline(always)]
pub fn ask<L: Loader>(
    machine: &mut Machine,
    class: &LinkedClass,
    place: usize,
    loader: &L,
) -> Result<(), Outcome>
    requires { (steps : ℕ) × CanStepWith L.ASKS class.now (at_regs machine.old place steps) }
    ensures told { (steps : ℕ) → Informs L.ASKS class.now (at_regs machine.old place steps) (at_regs machine.new place steps) result }
    ensures kept { AreKept machine.old machine.new }
    ensures callers { machine.new.slots.callers ≡ machine.old.slots.callers }
    ensures given { KeepsGiven (L.gives loader.now) machine.old machine.new }
{
    if is_asking::<L>(machine, class, place) {
        return match loader.load(machine.key) {
            Ok(value) => {
                machine.entry.loaded(value);
                Ok(())
            }
            Err(LoadFailed) => {
                machine.entry.load_failed();
                Err(Outcome::Threw(JavaFault::CacheLoader))
            }
        };
    }
    Ok(())
}
