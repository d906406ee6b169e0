//! The methods of `Long`, `Integer` and `Boolean`: `intValue`, `longValue` and `booleanValue`.

ghost use Rattle.std.specs.Prelude.{◌≡◌};
ghost use Rattle.jtypes.specs.Arithmetic.{low_int};
ghost use Rattle.jtypes.specs.Entry.{Entry};
ghost use Rattle.jtypes.specs.Library.{box_reply};
ghost use Rattle.natives.specs.Answer.{given};

use jtypes::{Native, RefValue, Value};

/// Returns the result of `intValue` or `longValue` (Java API, `Number`) or of `booleanValue`,
/// or `None` for another method or receiver.
#[inline(always)]
pub fn box_call(native: Native, receiver: RefValue) -> Option<Value>
    ensures { (now : Entry) → box_reply native now receiver ≡ given result now }
{
    match (native, receiver) {
        (Native::IntValue, RefValue::Long(n)) => Some(Value::Int(low_int(n))),
        (Native::IntValue, RefValue::Integer(n)) => Some(Value::Int(n)),
        (Native::LongValue, RefValue::Long(n)) => Some(Value::Long(n)),
        (Native::LongValue, RefValue::Integer(n)) => Some(Value::Long(i64::from(n))),
        (Native::BooleanValue, RefValue::Boolean(b)) => Some(Value::Int(i32::from(b))),
        _ => None,
    }
}

/// Returns the low 32 bits of a long as an int (JVMS §6.5, `l2i`).
#[inline(always)]
fn low_int(n: i64) -> i32
    ensures { result ≡ low_int n }
{
    ((n.cast_unsigned() % (1 << 32)) as u32).cast_signed()
}
