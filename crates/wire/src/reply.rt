//! Replies.

ghost use Rattle.std.specs.Prelude.{◌≡◌};
ghost use Rattle.wire.specs.Frames.{denial_number};

use jtypes::{Items, Outcome, Refusal};

/// Why the server doesn't execute a request.
#[derive(Clone, Copy, PartialEq, Eq)]
pub enum Denial {
    /// No accepted class has this number.
    UnknownClass,
    JournalFull,
    NoMemory,
    /// The stream already has the maximum number of accepted classes.
    TooManyClasses,
    /// The request's jobs would exceed the maximum of a round.
    TooManyJobs,
}

impl Denial {
    /// Returns the number of the denial, from 1 to 5.
    pub fn number(self) -> u8
        ensures { result ≡ denial_number self }
    {
        match self {
            Denial::UnknownClass => 1,
            Denial::JournalFull => 2,
            Denial::NoMemory => 3,
            Denial::TooManyClasses => 4,
            Denial::TooManyJobs => 5,
        }
    }
}

/// The outcome of an `InvokeAll` for one key.
#[derive(Clone, Copy, PartialEq, Eq)]
pub enum JobOutcome {
    Ended(Outcome),
    Denied(Denial),
}

/// A reply to a client.
#[derive(Drop)]
pub enum Reply {
    /// The class is accepted: its number among the accepted classes, and its bounds.
    Defined { class: u32, steps: u32, words: u32 },
    /// The class is refused.
    Refused(Refusal),
    Done,
    /// The value of a key, or none if the key is absent.
    Value(Option<i64>),
    Flag(bool),
    /// The outcome of an invocation.
    Result(Outcome),
    /// Keys of an `InvokeAll`, each with its outcome.
    Results(Items<(i64, JobOutcome)>),
    Denied(Denial),
    RoundEnd,
    /// The number of the protocol.
    Version(u32),
}
