//! Why a stream ends early.

ghost use Rattle.std.specs.Prelude.{◌≡◌};
ghost use Rattle.serve.specs.Settings.{fault_number, fault_name};

use std::alloc::AllocError;
use wire::{WireFault, WriteFailed};

/// Why a stream ends early. A Java exception is no fault: it is a reply.
#[derive(Clone, Copy, Debug, PartialEq, Eq)]
pub enum ServeFault {
    /// The length field of a frame exceeds the maximum.
    TooLong,
    /// The input ends inside a frame, or inside a round.
    Truncated,
    /// A frame is complete, but encodes no request.
    Malformed,
    /// The reader returned an error.
    Read,
    NoMemory,
    /// The writer returned an error, or accepted no byte.
    Write,
    /// There are more than 16 workers, or the number of stripes isn't in 1 to 64.
    BadCount,
}

impl ServeFault {
    /// Returns the number of the fault, from 1 to 7.
    pub fn number(self) -> u8
        ensures { result ≡ fault_number self }
    {
        match self {
            ServeFault::TooLong => 1,
            ServeFault::Truncated => 2,
            ServeFault::Malformed => 3,
            ServeFault::Read => 4,
            ServeFault::NoMemory => 5,
            ServeFault::Write => 6,
            ServeFault::BadCount => 7,
        }
    }

    /// Returns the name of the fault.
    pub fn name(self) -> &'static str
        ensures { result.now ≡ fault_name self }
    {
        match self {
            ServeFault::TooLong => "TooLong",
            ServeFault::Truncated => "Truncated",
            ServeFault::Malformed => "Malformed",
            ServeFault::Read => "Read",
            ServeFault::NoMemory => "NoMemory",
            ServeFault::Write => "Write",
            ServeFault::BadCount => "BadCount",
        }
    }
}

impl From<AllocError> for ServeFault {
    ghost use Rattle.std.specs.Prelude.{◌≡◌};
    ghost use Rattle.serve.specs.declared.fault.ServeFault.TheVariants.{NoMemory};

    ghost from_gives = { λ _ fault. fault ≡ NoMemory };

    fn from(_: AllocError) -> ServeFault {
        ServeFault::NoMemory
    }
}

impl From<WriteFailed> for ServeFault {
    ghost use Rattle.std.specs.Prelude.{◌≡◌};
    ghost use Rattle.serve.specs.declared.fault.ServeFault.TheVariants.{Write};

    ghost from_gives = { λ _ fault. fault ≡ Write };

    fn from(_: WriteFailed) -> ServeFault {
        ServeFault::Write
    }
}

/// Maps the fault of a frame to the stream's fault of the same name.
impl From<WireFault> for ServeFault {
    ghost use Rattle.std.specs.Prelude.{◌≡◌};
    ghost use Rattle.serve.specs.Kept.{fault_of_wire};

    ghost from_gives = { λ cause fault. fault ≡ fault_of_wire cause };

    fn from(cause: WireFault) -> ServeFault {
        match cause {
            WireFault::TooLong => ServeFault::TooLong,
            WireFault::Truncated => ServeFault::Truncated,
            WireFault::Malformed => ServeFault::Malformed,
            WireFault::Read => ServeFault::Read,
            WireFault::NoMemory => ServeFault::NoMemory,
        }
    }
}
