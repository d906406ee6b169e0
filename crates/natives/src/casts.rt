//! The type test of casts.

ghost use Rattle.std.specs.Prelude.{◌≡◌};
ghost use Rattle.jtypes.specs.declared.types.RefValue.{RefValue};
ghost use Rattle.jtypes.specs.Values.{passes, array_passes};
ghost use Rattle.arena.specs.Placing.{IsReference};

use arena::Arena;
use jtypes::{ArrayKind, RefType, RefValue};

/// Returns whether a reference passes `checkcast` and `instanceof` for a type, by its run-time class
/// (JVMS §6.5, `checkcast` and `instanceof`).
///
/// Null gives false, as in `instanceof`; the caller handles null for `checkcast`.
/// The id of an array is the word at which the array begins in the arena.
pub fn passes(arena: &Arena, value: RefValue, target: &RefType) -> bool
    requires { (v : RefValue) × IsReference arena.now.arrays v value }
    ensures { (v : RefValue) → IsReference arena.now.arrays v value → result ≡ passes arena.now.arrays v target.now }
{
    match (value, *target) {
        (RefValue::Null, _) => false,
        (RefValue::Array(id), target) => array_passes(arena.kind(id), target),
        (_, RefType::Object) => true,
        (RefValue::Long(_), RefType::Long | RefType::Number) => true,
        (RefValue::Integer(_), RefType::Integer | RefType::Number) => true,
        (RefValue::Boolean(_), RefType::Boolean) => true,
        (RefValue::Entry, RefType::MutableEntry | RefType::CacheEntry) => true,
        (RefValue::This, RefType::This | RefType::EntryProcessor) => true,
        (RefValue::Args, RefType::ObjectArray) => true,
        _ => false,
    }
}

/// Returns whether an array is of a type: its own, or `Object` (JVMS §6.5, `checkcast`).
/// Arrays implement none of the interfaces of the profile.
fn array_passes(kind: ArrayKind, target: RefType) -> bool
    ensures { result ≡ array_passes kind target }
{
    match (kind, target) {
        (_, RefType::Object) => true,
        (ArrayKind::Int, RefType::IntArray) => true,
        (ArrayKind::Long, RefType::LongArray) => true,
        _ => false,
    }
}
