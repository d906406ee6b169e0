//! Each library call and each cast, with extreme values.

ghost use Rattle.std.specs.Prelude.{ℕ};
ghost use Rattle.arena.specs.Placing.{IsArrayAt, IsReference};

use arena::Arena;
use jtypes::{ArrayId, ArrayKind, JavaFault, Native, RefType, RefValue, Value};
use mutentry::EntryState;
use natives::*;
use std::test::Fail;

const KEY: i64 = i64::MIN;

#[test]
fn statics_answer(rt: HostRuntime) {
    let mut entry = EntryState::of(Some(7));
    let boxed = call(
        Native::LongValueOf,
        KEY,
        &mut entry,
        &[Value::Long(i64::MAX)],
    );
    assert_eq!(rt; boxed, Ok(Some(Value::Ref(RefValue::Long(i64::MAX)))));
    let boxed = call(
        Native::IntegerValueOf,
        KEY,
        &mut entry,
        &[Value::Int(i32::MIN)],
    );
    assert_eq!(rt; boxed, Ok(Some(Value::Ref(RefValue::Integer(i32::MIN)))));
    for (n, flag) in [(0, false), (1, true), (2, true), (i32::MIN, true)] {
        let boxed = call(Native::BooleanValueOf, KEY, &mut entry, &[Value::Int(n)]);
        assert_eq!(rt; boxed, Ok(Some(Value::Ref(RefValue::Boolean(flag)))));
    }
    let ints = [Value::Int(i32::MIN), Value::Int(i32::MAX)];
    assert_eq!(rt;
        call(Native::MaxOfInts, KEY, &mut entry, &ints),
        Ok(Some(Value::Int(i32::MAX)))
    );
    assert_eq!(rt;
        call(Native::MinOfInts, KEY, &mut entry, &ints),
        Ok(Some(Value::Int(i32::MIN)))
    );
    let longs = [Value::Long(i64::MAX), Value::Long(i64::MIN)];
    assert_eq!(rt;
        call(Native::MaxOfLongs, KEY, &mut entry, &longs),
        Ok(Some(Value::Long(i64::MAX)))
    );
    assert_eq!(rt;
        call(Native::MinOfLongs, KEY, &mut entry, &longs),
        Ok(Some(Value::Long(i64::MIN)))
    );
}

#[test]
fn a_box_is_opened(rt: HostRuntime) {
    let mut entry = EntryState::of(None);
    let wide = [Value::Ref(RefValue::Long(0x1_8000_0001))];
    let narrow = [Value::Ref(RefValue::Integer(-3))];
    let none = [Value::Ref(RefValue::Null)];
    assert_eq!(rt;
        call(Native::IntValue, KEY, &mut entry, &wide),
        Ok(Some(Value::Int(i32::MIN + 1)))
    );
    assert_eq!(rt;
        call(Native::LongValue, KEY, &mut entry, &wide),
        Ok(Some(Value::Long(0x1_8000_0001)))
    );
    assert_eq!(rt;
        call(Native::IntValue, KEY, &mut entry, &narrow),
        Ok(Some(Value::Int(-3)))
    );
    assert_eq!(rt;
        call(Native::LongValue, KEY, &mut entry, &narrow),
        Ok(Some(Value::Long(-3)))
    );
    assert_eq!(rt;
        call(Native::LongValue, KEY, &mut entry, &none),
        Err(JavaFault::NullPointer)
    );
    for (flag, n) in [(false, 0), (true, 1)] {
        let boxed = [Value::Ref(RefValue::Boolean(flag))];
        assert_eq!(rt;
            call(Native::BooleanValue, KEY, &mut entry, &boxed),
            Ok(Some(Value::Int(n)))
        );
    }
    assert_eq!(rt;
        call(Native::BooleanValue, KEY, &mut entry, &none),
        Err(JavaFault::NullPointer)
    );
}

#[test]
fn the_entry_is_called(rt: HostRuntime) {
    let mut entry = EntryState::of(None);
    let receiver = [Value::Ref(RefValue::Entry)];
    let set_long = [Value::Ref(RefValue::Entry), Value::Ref(RefValue::Long(5))];
    let set_null = [Value::Ref(RefValue::Entry), Value::Ref(RefValue::Null)];
    let set_int = [
        Value::Ref(RefValue::Entry),
        Value::Ref(RefValue::Integer(5)),
    ];
    let null = Ok(Some(Value::Ref(RefValue::Null)));
    let key = Ok(Some(Value::Ref(RefValue::Long(KEY))));
    assert_eq!(rt; call(Native::GetKey, KEY, &mut entry, &receiver), key);
    assert_eq!(rt; call(Native::GetValue, KEY, &mut entry, &receiver), null);
    assert_eq!(rt;
        call(Native::Exists, KEY, &mut entry, &receiver),
        Ok(Some(Value::Int(0)))
    );
    assert_eq!(rt;
        call(Native::SetValue, KEY, &mut entry, &set_long),
        Ok(None)
    );
    assert_eq!(rt;
        call(Native::SetValue, KEY, &mut entry, &set_null),
        Err(JavaFault::NullPointer)
    );
    assert_eq!(rt;
        call(Native::SetValue, KEY, &mut entry, &set_int),
        Err(JavaFault::ClassCast)
    );
    assert_eq!(rt;
        call(Native::Exists, KEY, &mut entry, &receiver),
        Ok(Some(Value::Int(1)))
    );
    let five = Ok(Some(Value::Ref(RefValue::Long(5))));
    assert_eq!(rt; call(Native::GetValue, KEY, &mut entry, &receiver), five);
    assert_eq!(rt; call(Native::Remove, KEY, &mut entry, &receiver), Ok(None));
    assert!(rt; !entry.exists());
}

#[test]
fn another_receiver_of_an_interface_call_is_a_fault(rt: HostRuntime) {
    let mut entry = EntryState::of(Some(7));
    let long = [Value::Ref(RefValue::Long(7))];
    let this = [Value::Ref(RefValue::This), Value::Ref(RefValue::Null)];
    let fault = Err(JavaFault::IncompatibleClassChange);
    assert_eq!(rt; call(Native::GetValue, KEY, &mut entry, &long), fault);
    assert_eq!(rt; call(Native::SetValue, KEY, &mut entry, &this), fault);
    assert_eq!(rt; entry.get_value(), Some(7));
}

// Returns whether a cast to `target` passes this reference, which the specification has in the same form, as any but an array's.
fn passes_as(arena: &Arena, value: RefValue, target: RefType) -> bool
    requires { IsReference arena.now.arrays value value }
{
    passes(arena, value, &target)
}

// Returns whether a cast to `target` passes this array.
fn array_passes_as(arena: &Arena, id: ArrayId, target: RefType) -> bool
    requires { (k : ℕ) × IsArrayAt arena.now.arrays k id }
{
    passes(arena, RefValue::Array(id), &target)
}

#[test]
fn a_cast_goes_by_the_class(rt: HostRuntime) -> Result<(), Fail> {
    let arena = Arena::new(rt.alloc(), 0)?;
    let long = RefValue::Long(1);
    assert!(rt; passes_as(&arena, long, RefType::Long));
    assert!(rt; passes_as(&arena, long, RefType::Number));
    assert!(rt; passes_as(&arena, long, RefType::Object));
    assert!(rt; !passes_as(&arena, long, RefType::Integer));
    assert!(rt; !passes_as(&arena, long, RefType::This));
    let integer = RefValue::Integer(1);
    assert!(rt; passes_as(&arena, integer, RefType::Integer));
    let flag = RefValue::Boolean(true);
    assert!(rt; passes_as(&arena, flag, RefType::Boolean));
    assert!(rt; passes_as(&arena, flag, RefType::Object));
    assert!(rt; !passes_as(&arena, flag, RefType::Number));
    assert!(rt; !passes_as(&arena, flag, RefType::Void));
    assert!(rt; !passes_as(&arena, integer, RefType::Boolean));
    assert!(rt; passes_as(&arena, integer, RefType::Number));
    assert!(rt; passes_as(&arena, integer, RefType::Object));
    assert!(rt; !passes_as(&arena, integer, RefType::Long));
    assert!(rt; !passes_as(&arena, integer, RefType::MutableEntry));
    assert!(rt; !passes_as(&arena, RefValue::Null, RefType::Object));
    Ok(())
}

#[test]
fn what_a_call_is_given_is_cast(rt: HostRuntime) -> Result<(), Fail> {
    let arena = Arena::new(rt.alloc(), 0)?;
    let entry = RefValue::Entry;
    assert!(rt; passes_as(&arena, entry, RefType::MutableEntry));
    assert!(rt; passes_as(&arena, entry, RefType::CacheEntry));
    assert!(rt; passes_as(&arena, entry, RefType::Object));
    assert!(rt; !passes_as(&arena, entry, RefType::EntryProcessor));
    let this = RefValue::This;
    assert!(rt; passes_as(&arena, this, RefType::This));
    assert!(rt; passes_as(&arena, this, RefType::EntryProcessor));
    assert!(rt; passes_as(&arena, this, RefType::Object));
    assert!(rt; !passes_as(&arena, this, RefType::CacheEntry));
    let args = RefValue::Args;
    assert!(rt; passes_as(&arena, args, RefType::ObjectArray));
    assert!(rt; passes_as(&arena, args, RefType::Object));
    assert!(rt; !passes_as(&arena, args, RefType::IntArray));
    Ok(())
}

#[test]
fn an_array_is_cast_by_its_kind(rt: HostRuntime) -> Result<(), Fail> {
    let mut arena = Arena::new(rt.alloc(), 2)?;
    let ints = arena.alloc(ArrayKind::Int, 0)?;
    let longs = arena.alloc(ArrayKind::Long, 0)?;
    assert!(rt; array_passes_as(&arena, ints, RefType::IntArray));
    assert!(rt; array_passes_as(&arena, ints, RefType::Object));
    assert!(rt; !array_passes_as(&arena, ints, RefType::LongArray));
    assert!(rt; array_passes_as(&arena, longs, RefType::LongArray));
    assert!(rt; array_passes_as(&arena, longs, RefType::Object));
    assert!(rt; !array_passes_as(&arena, longs, RefType::ObjectArray));
    Ok(())
}
