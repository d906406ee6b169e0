//! Library calls (JVMS §6.5, `invokestatic`, `invokevirtual` and `invokeinterface`).

ghost use Rattle.std.specs.Prelude.{Some};
ghost use Rattle.slots.specs.Reads.{AreSame};
ghost use Rattle.interpreter.specs.Holds.{Keeps};
ghost use Rattle.interpreter.specs.Acts.{CanCallLibrary, CallsLibrary};
ghost use Rattle.interpreter.specs.Replies.{CanPush, Pushes, CanAnswer, Answers, CanCallOn, CallsOn, IsInt, IsLong, AreInts, AreLongs, IsRef, AreRefs};

use crate::machine::Machine;
use jtypes::{Native, Outcome, Value};
use slots::Slots;

/// Pushes a value.
#[inline(always)]
fn push(slots: &mut Slots, value: Value)
    requires { CanPush (Some value) slots.old }
    ensures pushes { Pushes (Some value) slots.old slots.new }
    ensures same { AreSame slots.old slots.new }
{
    match value {
        Value::Int(n) => slots.push_int(n),
        Value::Long(n) => slots.push_long(n),
        Value::Ref(r) => slots.push_reference(r),
    }
}

/// Pushes the result of a library call, if it has one.
#[inline(always)]
fn push_answer(slots: &mut Slots, answer: Option<Value>)
    requires { CanPush answer slots.old }
    ensures pushes { Pushes answer slots.old slots.new }
    ensures same { AreSame slots.old slots.new }
{
    if let Some(value) = answer {
        push(slots, value);
    }
}

/// Calls the library on arguments that were popped, the receiver first, and pushes the result.
#[inline(always)]
fn answer(machine: &mut Machine, native: Native, values: &[Value]) -> Result<(), Outcome>
    requires { CanAnswer native values.now machine.old }
    ensures told { Answers native values.now machine.old machine.new result }
    ensures keeps { Keeps machine.old machine.new }
{
    match natives::call(native, machine.key, &mut machine.entry, values) {
        Ok(answer) => {
            push_answer(&mut machine.slots, answer);
            Ok(())
        }
        Err(fault) => Err(Outcome::Threw(fault)),
    }
}

#[inline(always)]
fn call_on_int(machine: &mut Machine, native: Native) -> Result<(), Outcome>
    requires { CanCallOn native IsInt machine.old }
    ensures told { CallsOn native IsInt machine.old machine.new result }
    ensures keeps { Keeps machine.old machine.new }
{
    let a = machine.slots.pop_int();
    answer(machine, native, &[Value::Int(a)])
}

#[inline(always)]
fn call_on_long(machine: &mut Machine, native: Native) -> Result<(), Outcome>
    requires { CanCallOn native IsLong machine.old }
    ensures told { CallsOn native IsLong machine.old machine.new result }
    ensures keeps { Keeps machine.old machine.new }
{
    let a = machine.slots.pop_long();
    answer(machine, native, &[Value::Long(a)])
}

#[inline(always)]
fn call_on_ints(machine: &mut Machine, native: Native) -> Result<(), Outcome>
    requires { CanCallOn native AreInts machine.old }
    ensures told { CallsOn native AreInts machine.old machine.new result }
    ensures keeps { Keeps machine.old machine.new }
{
    let b = machine.slots.pop_int();
    let a = machine.slots.pop_int();
    answer(machine, native, &[Value::Int(a), Value::Int(b)])
}

#[inline(always)]
fn call_on_longs(machine: &mut Machine, native: Native) -> Result<(), Outcome>
    requires { CanCallOn native AreLongs machine.old }
    ensures told { CallsOn native AreLongs machine.old machine.new result }
    ensures keeps { Keeps machine.old machine.new }
{
    let b = machine.slots.pop_long();
    let a = machine.slots.pop_long();
    answer(machine, native, &[Value::Long(a), Value::Long(b)])
}

#[inline(always)]
fn call_on_reference(machine: &mut Machine, native: Native) -> Result<(), Outcome>
    requires { CanCallOn native IsRef machine.old }
    ensures told { CallsOn native IsRef machine.old machine.new result }
    ensures keeps { Keeps machine.old machine.new }
{
    let a = machine.slots.pop_reference();
    answer(machine, native, &[Value::Ref(a)])
}

#[inline(always)]
fn call_on_references(machine: &mut Machine, native: Native) -> Result<(), Outcome>
    requires { CanCallOn native AreRefs machine.old }
    ensures told { CallsOn native AreRefs machine.old machine.new result }
    ensures keeps { Keeps machine.old machine.new }
{
    let b = machine.slots.pop_reference();
    let a = machine.slots.pop_reference();
    answer(machine, native, &[Value::Ref(a), Value::Ref(b)])
}

/// Executes a library call. Its arguments are on the operand stack, the first one lowest.
pub fn call_library(machine: &mut Machine, native: Native) -> Result<(), Outcome>
    requires { CanCallLibrary native machine.old }
    ensures told { CallsLibrary native machine.old machine.new result }
    ensures keeps { Keeps machine.old machine.new }
{
    match native {
        Native::IntegerValueOf | Native::BooleanValueOf => call_on_int(machine, native),
        Native::LongValueOf => call_on_long(machine, native),
        Native::MaxOfInts | Native::MinOfInts => call_on_ints(machine, native),
        Native::MaxOfLongs | Native::MinOfLongs => call_on_longs(machine, native),
        Native::SetValue => call_on_references(machine, native),
        Native::IntValue
        | Native::LongValue
        | Native::BooleanValue
        | Native::GetKey
        | Native::GetValue
        | Native::Exists
        | Native::Remove => call_on_reference(machine, native),
    }
}
