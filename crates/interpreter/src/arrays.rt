//! Arrays (JVMS §6.5, `newarray`, `iaload`, `laload`, `aaload`, `iastore`, `lastore` and `arraylength`).

ghost use Rattle.std.specs.Prelude.{◌≡◌, ◌<◌, ◌^◌, ℕ, pos};
ghost use Rattle.jtypes.specs.declared.types.Value.{Value};
ghost use Rattle.jtypes.specs.Values.{value_of_arg, item_at};
ghost use Rattle.arena.specs.Placing.{FitsElement};
ghost use Rattle.slots.specs.declared.slots.Slots.{Slots};
ghost use Rattle.slots.specs.Seen.{IsSame, seen};
ghost use Rattle.interpreter.specs.RegArrays.{CanPushElement, PushesElement, CanPopElement, PopsElement};
ghost use Rattle.interpreter.specs.Holds.{Keeps};
ghost use Rattle.interpreter.specs.Within.{AreWordsKept, within};
ghost use Rattle.interpreter.specs.Acts.{CanTake, Takes, CanTakeAnywhere, TakesAnywhere, threw, array_made, item_loaded, item_stored, argument_loaded, length_measured};

use crate::machine::Machine;
use arena::Arena;
use jtypes::{Arg, Args, ArrayKind, JavaFault, Outcome, RefValue};
use slots::Window;

/// Returns a nonnegative int as an array length.
fn size_of(count: i32) -> u32
    requires { (n : ℕ) × (count ≡ pos n) }
    ensures { (n : ℕ) → count ≡ pos n → result ≡ n }
{
    count as u32
}

/// Pops a length and pushes a new array of zeros.
/// By the precondition the arena has enough free words, so that `alloc` cannot fail.
pub fn make_array(machine: &mut Machine, kind: ArrayKind) -> Result<(), Outcome>
    requires { CanTake (array_made kind) machine.old }
    ensures told { Takes (array_made kind) machine.old machine.new result }
    ensures keeps { Keeps machine.old machine.new }
{
    let size = size_of(machine.slots.pop_int());
    match machine.arena.alloc(kind, size) {
        Ok(id) => {
            machine.slots.push_reference(RefValue::Array(id));
            Ok(())
        }
        Err(_) => unreachable!(),
    }
}

/// Returns an element of an int array as an int.
fn int_of(n: i64) -> i32
    requires { FitsElement ArrayKind.Int n }
    ensures { result ≡ n }
{
    n as i32
}

/// Pushes an array element, as an int or a long by the array's kind.
#[inline(always)]
fn push_element(window: &mut Window<'_>, kind: ArrayKind, n: i64)
    requires { (s : Slots) × CanPushElement kind n (seen s window.old) }
    ensures pushes { (s : Slots) → PushesElement kind n (seen s window.old) (seen s window.new) }
    ensures same { IsSame window.old window.new }
{
    match kind {
        ArrayKind::Int => window.push_int(int_of(n)),
        ArrayKind::Long => window.push_long(n),
    }
}

/// Pops the value for an array element, an int or a long by the array's kind.
#[inline(always)]
fn pop_element(window: &mut Window<'_>, kind: ArrayKind) -> i64
    requires { (s : Slots) × CanPopElement kind (seen s window.old) }
    ensures pops { (s : Slots) → PopsElement kind (seen s window.old) (seen s window.new) result }
    ensures same { IsSame window.old window.new }
{
    match kind {
        ArrayKind::Int => i64::from(window.pop_int()),
        ArrayKind::Long => window.pop_long(),
    }
}

/// Pops an index and an array reference, and pushes the element.
/// Fails on a null reference or an index out of bounds.
#[inline(always)]
pub fn load_item(window: &mut Window<'_>, arena: &Arena, kind: ArrayKind) -> Result<(), JavaFault>
    requires { (m : Machine) × CanTakeAnywhere (item_loaded kind) (within m window.old arena.now) }
    ensures told { (m : Machine) → TakesAnywhere (item_loaded kind) (within m window.old arena.now) (within m window.new arena.now) (threw result) }
    ensures same { IsSame window.old window.new }
{
    let index = window.pop_int();
    match window.pop_array() {
        None => Err(JavaFault::NullPointer),
        Some(id) => match arena.get(id, index) {
            Ok(n) => {
                push_element(window, kind, n);
                Ok(())
            }
            Err(fault) => Err(fault),
        },
    }
}

/// Pops a value, an index and an array reference, and stores the value in the element.
/// Fails on a null reference or an index out of bounds.
#[inline(always)]
pub fn store_item(
    window: &mut Window<'_>,
    arena: &mut Arena,
    kind: ArrayKind,
) -> Result<(), JavaFault>
    requires { (m : Machine) × CanTakeAnywhere (item_stored kind) (within m window.old arena.old) }
    ensures told { (m : Machine) → TakesAnywhere (item_stored kind) (within m window.old arena.old) (within m window.new arena.new) (threw result) }
    ensures same { IsSame window.old window.new }
    ensures words { AreWordsKept arena.old arena.new }
{
    let n = pop_element(window, kind);
    let index = window.pop_int();
    match window.pop_array() {
        None => Err(JavaFault::NullPointer),
        Some(id) => match arena.set(id, index, n) {
            Ok(()) => Ok(()),
            Err(fault) => Err(fault),
        },
    }
}

/// Returns the argument at an index, or `None` if the index is out of bounds.
fn argument_at(args: &Args, index: i32) -> Option<Arg>
    ensures { result ≡ item_at args.now index }
{
    let arguments = args.as_slice();
    match usize::try_from(index) {
        Ok(index) => arguments.get(index).copied(),
        Err(_) => None,
    }
}

/// Returns an argument as a reference: null, a `Long`, an `Integer` or a `Boolean`.
fn reference_of(argument: Arg) -> RefValue
    ensures { Value.Ref result ≡ value_of_arg argument }
{
    match argument {
        Arg::Null => RefValue::Null,
        Arg::Long(n) => RefValue::Long(n),
        Arg::Integer(n) => RefValue::Integer(n),
        Arg::Boolean(b) => RefValue::Boolean(b),
    }
}

/// Pops an index and the argument array, and pushes the argument at the index.
pub fn load_argument(machine: &mut Machine) -> Result<(), Outcome>
    requires { CanTake argument_loaded machine.old }
    ensures told { Takes argument_loaded machine.old machine.new result }
    ensures keeps { Keeps machine.old machine.new }
{
    let index = machine.slots.pop_int();
    match machine.slots.pop_reference() {
        RefValue::Null => Err(Outcome::Threw(JavaFault::NullPointer)),
        RefValue::Args => match argument_at(&machine.args, index) {
            Some(argument) => {
                machine.slots.push_reference(reference_of(argument));
                Ok(())
            }
            None => Err(Outcome::Threw(JavaFault::ArrayIndexOutOfBounds)),
        },
        _ => unreachable!(),
    }
}

/// Returns a length as an int.
fn count_of(length: usize) -> i32
    requires { length < 2 ^ 31 }
    ensures { result ≡ pos length }
{
    length as i32
}

/// Pops an array reference and pushes the length of the array.
pub fn measure(machine: &mut Machine) -> Result<(), Outcome>
    requires { CanTake length_measured machine.old }
    ensures told { Takes length_measured machine.old machine.new result }
    ensures keeps { Keeps machine.old machine.new }
{
    match machine.slots.pop_reference() {
        RefValue::Null => Err(Outcome::Threw(JavaFault::NullPointer)),
        RefValue::Args => {
            let count = count_of(machine.args.as_slice().len());
            machine.slots.push_int(count);
            Ok(())
        }
        RefValue::Array(id) => {
            let count = count_of(machine.arena.length(id) as usize);
            machine.slots.push_int(count);
            Ok(())
        }
        _ => unreachable!(),
    }
}
