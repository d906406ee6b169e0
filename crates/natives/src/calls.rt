//! The library calls.

ghost use Rattle.std.specs.Prelude.{◌≡◌, ◌∷◌};
ghost use Rattle.jtypes.specs.declared.types.Value.TheVariants.{Ref};
ghost use Rattle.jtypes.specs.Library.{Misses, is_static, library, instance_reply};
ghost use Rattle.natives.specs.Answer.{Answers};

use crate::boxes::box_call;
use crate::entry::entry_call;
use crate::statics::static_call;
use jtypes::{JavaFault, Native, RefValue, Value};
use mutentry::EntryState;

/// Performs a library call on its arguments in order, the receiver first. Returns the result, `None` for a void method.
/// A fault changes nothing.
///
/// The arguments must have the types that the call expects.
#[inline(always)]
pub fn call(
    native: Native,
    key: i64,
    entry: &mut EntryState,
    values: &[Value],
) -> Result<Option<Value>, JavaFault>
    requires { ¬ (library native key entry.old.now.entry values.now ≡ Misses) }
    ensures { Answers native (library native key entry.old.now.entry values.now) result entry.old entry.new }
{
    if is_static(native) {
        return Ok(Some(static_call(native, values).unwrap()));
    }
    match values {
        [Value::Ref(receiver), arguments @ ..] => {
            instance_call(native, key, entry, *receiver, arguments)
        }
        _ => unreachable!(),
    }
}

/// Returns whether a library method is static.
#[inline(always)]
fn is_static(native: Native) -> bool
    ensures { result ≡ is_static native }
{
    matches!(
        native,
        Native::LongValueOf
            | Native::IntegerValueOf
            | Native::BooleanValueOf
            | Native::MaxOfInts
            | Native::MinOfInts
            | Native::MaxOfLongs
            | Native::MinOfLongs
    )
}

/// Performs a call on a receiver: null throws (JVMS §6.5, `invokevirtual` and `invokeinterface`).
#[inline(always)]
fn instance_call(
    native: Native,
    key: i64,
    entry: &mut EntryState,
    receiver: RefValue,
    arguments: &[Value],
) -> Result<Option<Value>, JavaFault>
    requires { ¬ (instance_reply native key entry.old.now.entry (Ref receiver ∷ arguments.now) ≡ Misses) }
    ensures { Answers native (instance_reply native key entry.old.now.entry (Ref receiver ∷ arguments.now)) result entry.old entry.new }
{
    match (native, receiver) {
        (_, RefValue::Null) => Err(JavaFault::NullPointer),
        (Native::IntValue | Native::LongValue | Native::BooleanValue, _) => {
            Ok(Some(box_call(native, receiver).unwrap()))
        }
        (_, RefValue::Entry) => entry_call(native, key, entry, arguments),
        // Any other reference doesn't implement the interface (JVMS §6.5, `invokeinterface`).
        _ => Err(JavaFault::IncompatibleClassChange),
    }
}
