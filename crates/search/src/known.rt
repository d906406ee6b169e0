//! What is known of a value before an instruction.

ghost use Rattle.std.specs.Prelude.{◌≡◌, ◌<ℤ◌, pos, MatchOption};

use std::marker::Model;

/// The length of an array, below 2^31. Contracts see it as a number.
#[derive(Clone, Copy, PartialEq, Eq, PartialOrd, Ord)]
pub struct Length {
    elements: u32,
}

impl Model for Length {
    ghost use Rattle.std.specs.Prelude.{ℕ, ◌<◌, ◌^◌};

    ghost Value = { ℕ };

    ghost view = { λ l. l.elements };

    ghost inverse = { λ n. record { elements = n } };

    ghost invariant = { λ l. l.elements < 2 ^ 31 };
}

impl Length {
    /// Returns the length of this many elements, or `None` if the number is negative.
    pub fn new(elements: i32) -> Option<Length>
        ensures { MatchOption result (elements <ℤ pos 0) (λ l. elements ≡ pos l) }
    {
        if elements < 0 {
            return None;
        }
        Some(Length {
            elements: elements as u32,
        })
    }

    /// Returns the number of elements.
    pub fn elements(self) -> i32
        ensures { result ≡ pos self }
    {
        self.elements as i32
    }
}

/// What is known of a value of the operand stack or of a local variable.
#[derive(Clone, Copy, PartialEq, Eq, PartialOrd, Ord)]
pub enum Known {
    /// A long. Every other value is no long.
    Wide,
    /// Nothing else.
    Narrow,
    /// The int.
    Number(i32),
    /// An int, the number of the invocation's arguments.
    Count,
    /// An array of that length.
    Sized(Length),
    /// The array of the arguments.
    Arguments,
}
