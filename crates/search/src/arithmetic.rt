//! Arithmetic on known ints (JVMS §2.11.3, §2.11.4).

ghost use Rattle.std.specs.Prelude.{◌≡◌, pos, ◌%◌, ◌^◌, [], ◌∷◌, Some};
ghost use Rattle.std.specs.Int.{w8, w16, w32, cast_signed, cast_unsigned};
ghost use Rattle.jtypes.specs.declared.types.Value.TheVariants.{Int};
ghost use Rattle.jtypes.specs.Arithmetic as arithmetic;
ghost use Rattle.unrolled.specs.Known as spec;
ghost use Rattle.unrolled.specs.Graph as graph;
ghost use Rattle.search.specs.Seen.{known_seen};

use crate::known::Known;
use crate::values::unknown_of;
use jtypes::{Binary, Conversion, Division, JType, Operation, Shift};

/// Returns the type that an operation pushes.
fn puts_of(operation: Operation) -> JType
    ensures { result ≡ arithmetic.puts_of operation }
{
    match operation {
        Operation::OnLongs(_)
        | Operation::DivideLongs(_)
        | Operation::NegateLong
        | Operation::ShiftLong(_)
        | Operation::Convert(Conversion::IntToLong) => JType::Long,
        Operation::OnInts(_)
        | Operation::DivideInts(_)
        | Operation::NegateInt
        | Operation::ShiftInt(_)
        | Operation::CompareLongs
        | Operation::Convert(
            Conversion::LongToInt
            | Conversion::IntToByte
            | Conversion::IntToChar
            | Conversion::IntToShort,
        ) => JType::Int,
    }
}

/// Returns what is known of the result of an operation on operands that aren't all known.
pub fn of_unknown(operation: Operation) -> Known
    ensures { known_seen result ≡ spec.unknown_of (arithmetic.puts_of operation) }
{
    unknown_of(puts_of(operation))
}

/// Returns the wrapping 32-bit result of an operation on two ints.
fn binary(operation: Binary, a: i32, b: i32) -> i32
    ensures { result ≡ arithmetic.binary w32 operation a b }
{
    match operation {
        Binary::Add => a.wrapping_add(b),
        Binary::Subtract => a.wrapping_sub(b),
        Binary::Multiply => a.wrapping_mul(b),
        Binary::And => a & b,
        Binary::Or => a | b,
        Binary::Xor => a ^ b,
    }
}

/// Shifts an int by the low 5 bits of a count.
fn shift(direction: Shift, a: i32, count: i32) -> i32
    ensures { result ≡ arithmetic.shift w32 direction a (arithmetic.int_count count) }
{
    let bits = count.cast_unsigned() % 32;
    match direction {
        Shift::Left => a << bits,
        Shift::Right => a >> bits,
        Shift::UnsignedRight => (a.cast_unsigned() >> bits).cast_signed(),
    }
}

/// Returns what is known of a division's result; of one by 0, which throws, only the type.
fn divided(division: Division, a: i32, b: i32) -> Known
    ensures { known_seen result ≡ graph.by_numbers (Operation.DivideInts division) (Some (Int b ∷ Int a ∷ [])) }
{
    if b == 0 {
        return Known::Narrow;
    }
    match division {
        Division::Quotient => Known::Number(a.wrapping_div(b)),
        Division::Remainder => Known::Number(a.wrapping_rem(b)),
    }
}

fn low_byte(a: i32) -> i32
    ensures { result ≡ cast_signed w8 (cast_unsigned w32 a % 2 ^ 8) }
{
    let low = (a.cast_unsigned() % (1 << 8)) as u8;
    i32::from(low.cast_signed())
}

fn low_char(a: i32) -> i32
    ensures { result ≡ pos (cast_unsigned w32 a % 2 ^ 16) }
{
    let low = (a.cast_unsigned() % (1 << 16)) as u16;
    i32::from(low)
}

fn low_short(a: i32) -> i32
    ensures { result ≡ cast_signed w16 (cast_unsigned w32 a % 2 ^ 16) }
{
    let low = (a.cast_unsigned() % (1 << 16)) as u16;
    i32::from(low.cast_signed())
}

/// Returns what is known of the result of an operation on the two known ints `b`, on top, and `a`.
pub fn of_two(operation: Operation, a: i32, b: i32) -> Known
    ensures { known_seen result ≡ graph.by_numbers operation (Some (Int b ∷ Int a ∷ [])) }
{
    match operation {
        Operation::OnInts(o) => Known::Number(binary(o, a, b)),
        Operation::DivideInts(d) => divided(d, a, b),
        Operation::ShiftInt(s) => Known::Number(shift(s, a, b)),
        _ => of_unknown(operation),
    }
}

/// Returns what is known of the result of an operation on one known int.
pub fn of_one(operation: Operation, a: i32) -> Known
    ensures { known_seen result ≡ graph.by_numbers operation (Some (Int a ∷ [])) }
{
    match operation {
        Operation::NegateInt => Known::Number(a.wrapping_neg()),
        Operation::Convert(Conversion::IntToByte) => Known::Number(low_byte(a)),
        Operation::Convert(Conversion::IntToChar) => Known::Number(low_char(a)),
        Operation::Convert(Conversion::IntToShort) => Known::Number(low_short(a)),
        _ => of_unknown(operation),
    }
}
