//! Assignability of verification types.

ghost use Rattle.std.specs.Prelude.{◌≡◌};
ghost use Rattle.jtypes.specs.Types.{assignable, ref_assignable, is_array};

use jtypes::{JType, RefType};

fn is_array(r: RefType) -> bool
    ensures { result ≡ is_array r }
{
    match r {
        RefType::IntArray | RefType::LongArray | RefType::ObjectArray => true,
        RefType::Object
        | RefType::Number
        | RefType::Long
        | RefType::Integer
        | RefType::Boolean
        | RefType::Void
        | RefType::This
        | RefType::MutableEntry
        | RefType::EntryProcessor
        | RefType::CacheEntry => false,
    }
}

/// Returns whether a reference type is assignable to the declared one (JVMS §4.10.1.2).
pub fn ref_assignable(r: RefType, declared: RefType) -> bool
    ensures { result ≡ ref_assignable r declared }
{
    match declared {
        RefType::Object => true,
        RefType::MutableEntry | RefType::EntryProcessor | RefType::CacheEntry => !is_array(r),
        RefType::Number => matches!(r, RefType::Number | RefType::Long | RefType::Integer),
        RefType::Long => matches!(r, RefType::Long),
        RefType::Integer => matches!(r, RefType::Integer),
        RefType::Boolean => matches!(r, RefType::Boolean),
        RefType::Void => matches!(r, RefType::Void),
        RefType::This => matches!(r, RefType::This),
        RefType::IntArray => matches!(r, RefType::IntArray),
        RefType::LongArray => matches!(r, RefType::LongArray),
        RefType::ObjectArray => matches!(r, RefType::ObjectArray),
    }
}

/// Returns whether a type is assignable to the declared one (JVMS §4.10.1.2).
pub fn assignable(t: JType, declared: JType) -> bool
    ensures { result ≡ assignable t declared }
{
    match (t, declared) {
        (_, JType::Top) => true,
        (JType::Int, JType::Int) => true,
        (JType::Long, JType::Long) => true,
        (JType::Null, JType::Null) => true,
        (JType::Null, JType::Ref(_)) => true,
        (JType::Ref(r), JType::Ref(d)) => ref_assignable(r, d),
        _ => false,
    }
}
