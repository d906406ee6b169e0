//! Errors of reading a request.

ghost use Rattle.std.specs.Prelude.{◌≡◌};
ghost use Rattle.wire.specs.Reading.{wire_fault_number};

/// Why a request could not be read.
#[derive(Clone, Copy, Debug, PartialEq, Eq)]
pub enum WireFault {
    /// The length field exceeds 131,072, the longest text of a request in bytes.
    TooLong,
    /// The input ends inside the frame.
    Truncated,
    /// The frame is complete, but encodes no request.
    Malformed,
    /// The reader returned an error.
    Read,
    NoMemory,
}

impl WireFault {
    /// Returns the number of the fault, from 1 to 5.
    pub fn number(self) -> u8
        ensures { result ≡ wire_fault_number self }
    {
        match self {
            WireFault::TooLong => 1,
            WireFault::Truncated => 2,
            WireFault::Malformed => 3,
            WireFault::Read => 4,
            WireFault::NoMemory => 5,
        }
    }
}
