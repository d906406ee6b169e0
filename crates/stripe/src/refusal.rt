//! The refusals of tables and of calls.

ghost use Rattle.std.specs.Prelude.{◌≡◌};
ghost use Rattle.stripe.specs.declared.refusal.OpenRefusal.TheVariants as refusal;
ghost use Rattle.stripe.specs.declared.refusal.BeginRefusal.TheVariants.{NoMemory};

use std::alloc::{AllocError, AllocFailed};

/// The reason why tables are not created, or not split into stripes.
#[derive(Clone, Copy, Debug, PartialEq, Eq)]
pub enum OpenRefusal {
    /// A number of stripes outside 1 to 64, of records outside 1 to 4,096, or of a cache's seats outside 1 to 16.
    BadCount,
    NoMemory,
}

/// The reason why a call doesn't begin.
#[derive(Clone, Copy, Debug, PartialEq, Eq)]
pub enum BeginRefusal {
    /// The history has its maximum number of records.
    JournalFull,
    NoMemory,
}

impl From<AllocError> for OpenRefusal {
    ghost from_gives = { λ _ e. e ≡ refusal.NoMemory };

    fn from(_e: AllocError) -> OpenRefusal {
        OpenRefusal::NoMemory
    }
}

impl<T: Drop> From<AllocFailed<T>> for BeginRefusal {
    ghost from_gives = { λ _ e. e ≡ NoMemory };

    fn from(_e: AllocFailed<T>) -> BeginRefusal {
        BeginRefusal::NoMemory
    }
}
