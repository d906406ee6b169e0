//! The spot of a refusal in a class.

ghost use Rattle.std.specs.Prelude.{◌≡◌};
ghost use Rattle.jtypes.specs.declared.refusal.Refusal.TheVariants.{NoMemory};
ghost use Rattle.verdict.specs.declared.spot.Spot.TheVariants.{Whole};

use jtypes::Refusal;
use std::alloc::{AllocError, AllocFailed};

/// A part of a class.
/// Methods are indexed in class file order, from 0.
#[derive(Clone, Copy, PartialEq, Eq)]
pub enum Spot {
    /// The class as a whole.
    Whole,
    /// The method with this index.
    InMethod(usize),
    /// The instruction at pc `place` of the method with index `method`.
    AtInstruction { method: usize, place: usize },
}

/// A refusal and its spot.
/// The spot has no meaning if the refusal is `NoMemory`.
#[derive(Clone, Copy, PartialEq, Eq)]
pub struct Located {
    pub refusal: Refusal,
    pub spot: Spot,
}

/// Locates a refusal at the class as a whole.
impl From<Refusal> for Located {
    ghost from_gives = { λ r l. (l.refusal ≡ r) × (l.spot ≡ Whole) };

    fn from(refusal: Refusal) -> Located {
        Located {
            refusal,
            spot: Spot::Whole,
        }
    }
}

impl From<AllocError> for Located {
    ghost from_gives = { λ _ l. l.refusal ≡ NoMemory };

    fn from(_e: AllocError) -> Located {
        Located {
            refusal: Refusal::NoMemory,
            spot: Spot::Whole,
        }
    }
}

impl<T: Drop> From<AllocFailed<T>> for Located {
    ghost from_gives = { λ _ l. l.refusal ≡ NoMemory };

    fn from(_e: AllocFailed<T>) -> Located {
        Located {
            refusal: Refusal::NoMemory,
            spot: Spot::Whole,
        }
    }
}
