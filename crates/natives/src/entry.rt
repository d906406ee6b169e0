//! The methods of the entry.

ghost use Rattle.std.specs.Prelude.{◌≡◌};
ghost use Rattle.jtypes.specs.declared.types.Value.TheVariants.{Ref};
ghost use Rattle.jtypes.specs.Library.{Misses, entry_reply, value_of_entry};
ghost use Rattle.natives.specs.Answer.{Answers};

use jtypes::{JavaFault, Native, RefValue, Value};
use mutentry::EntryState;

/// Calls a method of the entry (JSR 107, `MutableEntry` and `Cache.Entry`). Returns the result, `None` for a void method.
#[inline(always)]
pub fn entry_call(
    native: Native,
    key: i64,
    entry: &mut EntryState,
    arguments: &[Value],
) -> Result<Option<Value>, JavaFault>
    requires { ¬ (entry_reply native key entry.old.now.entry arguments.now ≡ Misses) }
    ensures { Answers native (entry_reply native key entry.old.now.entry arguments.now) result entry.old entry.new }
{
    match (native, arguments) {
        (Native::GetKey, []) => Ok(Some(Value::Ref(RefValue::Long(key)))),
        (Native::GetValue, []) => Ok(Some(Value::Ref(reference(entry.get_value())))),
        (Native::SetValue, [Value::Ref(value)]) => {
            entry.set_value(*value)?;
            Ok(None)
        }
        (Native::Exists, []) => Ok(Some(Value::Int(i32::from(entry.exists())))),
        (Native::Remove, []) => {
            entry.remove();
            Ok(None)
        }
        _ => unreachable!(),
    }
}

/// Returns the value of the entry as a reference, null if the entry doesn't exist.
#[inline(always)]
fn reference(value: Option<i64>) -> RefValue
    ensures { Ref result ≡ value_of_entry value }
{
    match value {
        Some(n) => RefValue::Long(n),
        None => RefValue::Null,
    }
}
