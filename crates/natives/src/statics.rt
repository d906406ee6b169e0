//! The static methods: `valueOf` of `Long`, `Integer` and `Boolean`, `Math.max` and `Math.min`.

ghost use Rattle.std.specs.Prelude.{◌≡◌};
ghost use Rattle.jtypes.specs.Entry.{Entry};
ghost use Rattle.jtypes.specs.Library.{static_reply};
ghost use Rattle.natives.specs.Answer.{given};

use jtypes::{Native, RefValue, Value};

/// Returns the result of a static method, or `None` for another method or arguments of other types.
#[inline(always)]
pub fn static_call(native: Native, arguments: &[Value]) -> Option<Value>
    ensures { (now : Entry) → static_reply native now arguments.now ≡ given result now }
{
    match (native, arguments) {
        (Native::LongValueOf, [Value::Long(n)]) => Some(Value::Ref(RefValue::Long(*n))),
        (Native::IntegerValueOf, [Value::Int(n)]) => Some(Value::Ref(RefValue::Integer(*n))),
        (Native::BooleanValueOf, [Value::Int(n)]) => Some(Value::Ref(RefValue::Boolean(*n != 0))),
        (Native::MaxOfInts, [Value::Int(a), Value::Int(b)]) => Some(Value::Int((*a).max(*b))),
        (Native::MinOfInts, [Value::Int(a), Value::Int(b)]) => Some(Value::Int((*a).min(*b))),
        (Native::MaxOfLongs, [Value::Long(a), Value::Long(b)]) => Some(Value::Long((*a).max(*b))),
        (Native::MinOfLongs, [Value::Long(a), Value::Long(b)]) => Some(Value::Long((*a).min(*b))),
        _ => None,
    }
}
