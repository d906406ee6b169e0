//! Arguments from the numbers of the C interface.

ghost use Rattle.std.specs.Prelude.{◌≡◌, length, nat_le};
ghost use Rattle.jtypes.specs.Lists.{only_if};
ghost use Rattle.embedded.specs.Numbers.{arg_in, args_in, boolean_in};

use crate::numbers::ArgNumbers;
use jtypes::{Arg, Args};

/// The kinds of an argument.
const NULL: u32 = 0;

const LONG: u32 = 1;

const INTEGER: u32 = 2;

/// Behind the numbers of outcomes that aren't kinds, as the outcome of a returned Boolean has the same number.
const BOOLEAN: u32 = 7;

/// Returns the Boolean that is 1 or 0, `None` for any other number.
fn boolean_of(value: i64) -> Option<Arg>
    ensures { result ≡ boolean_in value }
{
    if value == 0 {
        Some(Arg::Boolean(false))
    } else if value == 1 {
        Some(Arg::Boolean(true))
    } else {
        None
    }
}

/// Returns the argument, or `None` if the kind is unknown, an Integer does not fit 32 bits or a Boolean isn't 0 or 1.
fn arg_of(numbers: ArgNumbers) -> Option<Arg>
    ensures { result ≡ arg_in numbers }
{
    match numbers.kind {
        NULL => Some(Arg::Null),
        LONG => Some(Arg::Long(numbers.value)),
        INTEGER => match i32::try_from(numbers.value) {
            Ok(value) => Some(Arg::Integer(value)),
            Err(_) => None,
        },
        BOOLEAN => boolean_of(numbers.value),
        _ => None,
    }
}

/// Returns the arguments in order, or `None` if there are more than eight or one of them is invalid.
pub fn args_of(numbers: &[ArgNumbers]) -> Option<Args>
    ensures { result ≡ only_if (nat_le (length numbers.now) 8) (args_in numbers.now) }
{
    let count = numbers.len();
    if count > Args::MOST {
        return None;
    }
    let mut items = [Arg::Null; 8];
    for i in 0..count {
        match arg_of(numbers[i]) {
            Some(arg) => items[i] = arg,
            None => return None,
        }
    }
    Args::of(&items[..count])
}
