//! A refusal of a code, with its pc.

ghost use Rattle.std.specs.Prelude.{◌≡◌};
ghost use Rattle.jtypes.specs.declared.refusal.Refusal.TheVariants.{NoMemory};

use jtypes::Refusal;
use std::alloc::{AllocError, AllocFailed};

/// A refusal, and the pc of the instruction to which it applies. The pc of `NoMemory` has no meaning.
#[derive(Clone, Copy, PartialEq, Eq)]
pub struct Fault {
    pub refusal: Refusal,
    pub place: usize,
}

/// Out of memory.
const NO_MEMORY: Fault = Fault {
    refusal: Refusal::NoMemory,
    place: 0,
};

impl From<AllocError> for Fault {
    ghost from_gives = { λ _ e. e.refusal ≡ NoMemory };

    fn from(_e: AllocError) -> Fault {
        NO_MEMORY
    }
}

impl<T: Drop> From<AllocFailed<T>> for Fault {
    ghost from_gives = { λ _ e. e.refusal ≡ NoMemory };

    fn from(_e: AllocFailed<T>) -> Fault {
        NO_MEMORY
    }
}
