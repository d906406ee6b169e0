//! Operations on ints and longs (JVMS §2.11.3, §2.11.4 and §6.5).

ghost use Rattle.std.specs.Prelude.{◌≡◌, ◌≢◌, ◌∷◌, ◌+◌, ℤ, List, Option, Some, None, pos};
ghost use Rattle.std.specs.Int.{w8, w16, w32, w64, cast_signed, cast_unsigned, int_wrapping_neg};
ghost use Rattle.std.specs.Prelude.{◌%◌, ◌^◌};
ghost use Rattle.jtypes.specs.declared.types.Value.{Value};
ghost use Rattle.jtypes.specs.declared.types.Value.TheVariants.{Int, Long};
ghost use Rattle.jtypes.specs.declared.operations.Operation.TheVariants.{OnInts, OnLongs, NegateInt, NegateLong, ShiftInt, ShiftLong, Convert, CompareLongs};
ghost use Rattle.jtypes.specs.Values.{Arrays};
ghost use Rattle.jtypes.specs.Arithmetic.{binary, divide, divided, shift, int_count, long_count, low_int, order};
ghost use Rattle.verdict.specs.Machine.{Activation};
ghost use Rattle.slots.specs.declared.slots.Slots.{Slots};
ghost use Rattle.slots.specs.Reads.{Reads, AreSame};
ghost use Rattle.slots.specs.Seen.{IsSame, seen};
ghost use Rattle.interpreter.specs.Operated.{CanOperate, Operated, HasInts, HasLongs, Divides};

use jtypes::{Binary, Conversion, Division, Shift};
use slots::{Slots, Window};

/// Returns the wrapping 32-bit result of a binary operation.
/// All six results are computed and one is indexed, which avoids a branch that is hard to predict.
pub fn int_of(operation: Binary, a: i32, b: i32) -> i32
    ensures { result ≡ binary w32 operation a b }
{
    let results = [
        a.wrapping_add(b),
        a.wrapping_sub(b),
        a.wrapping_mul(b),
        a & b,
        a | b,
        a ^ b,
    ];
    results[operation as usize]
}

/// Returns the wrapping 64-bit result of a binary operation, computed as in `int_of`.
pub fn long_of(operation: Binary, a: i64, b: i64) -> i64
    ensures { result ≡ binary w64 operation a b }
{
    let results = [
        a.wrapping_add(b),
        a.wrapping_sub(b),
        a.wrapping_mul(b),
        a & b,
        a | b,
        a ^ b,
    ];
    results[operation as usize]
}

/// Shifts an int by the low 5 bits of a count.
pub fn int_shifted(direction: Shift, a: i32, count: i32) -> i32
    ensures { result ≡ shift w32 direction a (int_count count) }
{
    let bits = count.cast_unsigned() % 32;
    match direction {
        Shift::Left => a << bits,
        Shift::Right => a >> bits,
        Shift::UnsignedRight => (a.cast_unsigned() >> bits).cast_signed(),
    }
}

/// Shifts a long by the low 6 bits of a count.
pub fn long_shifted(direction: Shift, a: i64, count: i32) -> i64
    ensures { result ≡ shift w64 direction a (long_count count) }
{
    let bits = count.cast_unsigned() % 64;
    match direction {
        Shift::Left => a << bits,
        Shift::Right => a >> bits,
        Shift::UnsignedRight => (a.cast_unsigned() >> bits).cast_signed(),
    }
}

/// Returns the low 32 bits of a long as an int.
pub fn low_int(a: i64) -> i32
    ensures { result ≡ low_int a }
{
    ((a.cast_unsigned() % (1 << 32)) as u32).cast_signed()
}

pub fn byte_of(a: i32) -> i32
    ensures { result ≡ cast_signed w8 (cast_unsigned w32 a % 2 ^ 8) }
{
    let low = (a.cast_unsigned() % (1 << 8)) as u8;
    i32::from(low.cast_signed())
}

pub fn char_of(a: i32) -> i32
    ensures { result ≡ pos (cast_unsigned w32 a % 2 ^ 16) }
{
    let low = (a.cast_unsigned() % (1 << 16)) as u16;
    i32::from(low)
}

pub fn short_of(a: i32) -> i32
    ensures { result ≡ cast_signed w16 (cast_unsigned w32 a % 2 ^ 16) }
{
    let low = (a.cast_unsigned() % (1 << 16)) as u16;
    i32::from(low.cast_signed())
}

/// Returns -1, 0 or 1 if `a` is less than, equal to or greater than `b` (JVMS §6.5, `lcmp`).
pub fn order(a: i64, b: i64) -> i32
    ensures { result ≡ order a b }
{
    if a < b {
        -1
    } else if b < a {
        1
    } else {
        0
    }
}

#[inline(always)]
pub fn on_ints(window: &mut Window<'_>, operation: Binary)
    requires { (s : Slots) × CanOperate (OnInts operation) (seen s window.old) }
    ensures operated { (s : Slots) → Operated (OnInts operation) (seen s window.old) (seen s window.new) }
    ensures same { IsSame window.old window.new }
{
    let b = window.pop_int();
    let a = window.pop_int();
    window.push_int(int_of(operation, a, b));
}

#[inline(always)]
pub fn on_longs(window: &mut Window<'_>, operation: Binary)
    requires { (s : Slots) × CanOperate (OnLongs operation) (seen s window.old) }
    ensures operated { (s : Slots) → Operated (OnLongs operation) (seen s window.old) (seen s window.new) }
    ensures same { IsSame window.old window.new }
{
    let b = window.pop_long();
    let a = window.pop_long();
    window.push_long(long_of(operation, a, b));
}

#[inline(always)]
pub fn negate_int(window: &mut Window<'_>)
    requires { (s : Slots) × CanOperate NegateInt (seen s window.old) }
    ensures operated { (s : Slots) → Operated NegateInt (seen s window.old) (seen s window.new) }
    ensures same { IsSame window.old window.new }
{
    let a = window.pop_int();
    window.push_int(a.wrapping_neg());
}

#[inline(always)]
pub fn negate_long(window: &mut Window<'_>)
    requires { (s : Slots) × CanOperate NegateLong (seen s window.old) }
    ensures operated { (s : Slots) → Operated NegateLong (seen s window.old) (seen s window.new) }
    ensures same { IsSame window.old window.new }
{
    let a = window.pop_long();
    window.push_long(a.wrapping_neg());
}

#[inline(always)]
pub fn shift_int(window: &mut Window<'_>, direction: Shift)
    requires { (s : Slots) × CanOperate (ShiftInt direction) (seen s window.old) }
    ensures operated { (s : Slots) → Operated (ShiftInt direction) (seen s window.old) (seen s window.new) }
    ensures same { IsSame window.old window.new }
{
    let count = window.pop_int();
    let a = window.pop_int();
    window.push_int(int_shifted(direction, a, count));
}

#[inline(always)]
pub fn shift_long(window: &mut Window<'_>, direction: Shift)
    requires { (s : Slots) × CanOperate (ShiftLong direction) (seen s window.old) }
    ensures operated { (s : Slots) → Operated (ShiftLong direction) (seen s window.old) (seen s window.new) }
    ensures same { IsSame window.old window.new }
{
    let count = window.pop_int();
    let a = window.pop_long();
    window.push_long(long_shifted(direction, a, count));
}

#[inline(always)]
pub fn compare_longs(window: &mut Window<'_>)
    requires { (s : Slots) × CanOperate CompareLongs (seen s window.old) }
    ensures operated { (s : Slots) → Operated CompareLongs (seen s window.old) (seen s window.new) }
    ensures same { IsSame window.old window.new }
{
    let b = window.pop_long();
    let a = window.pop_long();
    window.push_int(order(a, b));
}

#[inline(always)]
pub fn convert(window: &mut Window<'_>, conversion: Conversion)
    requires { (s : Slots) × CanOperate (Convert conversion) (seen s window.old) }
    ensures operated { (s : Slots) → Operated (Convert conversion) (seen s window.old) (seen s window.new) }
    ensures same { IsSame window.old window.new }
{
    match conversion {
        Conversion::IntToLong => {
            let a = window.pop_int();
            window.push_long(i64::from(a));
        }
        Conversion::LongToInt => {
            let a = window.pop_long();
            window.push_int(low_int(a));
        }
        Conversion::IntToByte => {
            let a = window.pop_int();
            window.push_int(byte_of(a));
        }
        Conversion::IntToChar => {
            let a = window.pop_int();
            window.push_int(char_of(a));
        }
        Conversion::IntToShort => {
            let a = window.pop_int();
            window.push_int(short_of(a));
        }
    }
}

/// Returns the quotient or the remainder, rounded toward zero, or `None` if the divisor is 0.
/// The least int divided by -1 is itself, with remainder 0.
#[inline(always)]
pub fn int_divided(division: Division, a: i32, b: i32) -> Option<i32>
    ensures none { result ≡ None → b ≡ pos 0 }
    ensures some { (n : ℤ) → result ≡ Some n → (b ≢ pos 0) × (n ≡ divide w32 division a b) }
{
    if b == 0 {
        return None;
    }
    Some(match division {
        Division::Quotient => a.wrapping_div(b),
        Division::Remainder => a.wrapping_rem(b),
    })
}

/// Returns the quotient or the remainder, rounded toward zero, or `None` if the divisor is 0.
/// The least long divided by -1 is itself, with remainder 0.
#[inline(always)]
pub fn long_divided(division: Division, a: i64, b: i64) -> Option<i64>
    ensures none { result ≡ None → b ≡ pos 0 }
    ensures some { (n : ℤ) → result ≡ Some n → (b ≢ pos 0) × (n ≡ divide w64 division a b) }
{
    if b == 0 {
        return None;
    }
    Some(match division {
        Division::Quotient => a.wrapping_div(b),
        Division::Remainder => a.wrapping_rem(b),
    })
}

/// Pops two ints, divides the lower by the upper one and pushes the result.
/// Returns false, and pushes nothing, if the divisor is 0.
pub fn divide_ints(slots: &mut Slots, division: Division) -> bool
    requires { HasInts slots.old }
    ensures divides { (arrays : Arrays) (ls : List (Option Value)) (a b : ℤ) (vs : List Value) (below : List Activation) → Reads arrays slots.old ls (Int b ∷ Int a ∷ vs) below → Divides arrays result slots.new ls (divided w32 (λ n. Int n) division a b vs) below }
    ensures same { AreSame slots.old slots.new }
{
    let b = slots.pop_int();
    let a = slots.pop_int();
    match int_divided(division, a, b) {
        Some(n) => {
            slots.push_int(n);
            true
        }
        None => false,
    }
}

/// Pops two longs, divides the lower by the upper one and pushes the result.
/// Returns false, and pushes nothing, if the divisor is 0.
pub fn divide_longs(slots: &mut Slots, division: Division) -> bool
    requires { HasLongs slots.old }
    ensures divides { (arrays : Arrays) (ls : List (Option Value)) (a b : ℤ) (vs : List Value) (below : List Activation) → Reads arrays slots.old ls (Long b ∷ Long a ∷ vs) below → Divides arrays result slots.new ls (divided w64 (λ n. Long n) division a b vs) below }
    ensures same { AreSame slots.old slots.new }
{
    let b = slots.pop_long();
    let a = slots.pop_long();
    match long_divided(division, a, b) {
        Some(n) => {
            slots.push_long(n);
            true
        }
        None => false,
    }
}
