//! The events of a world, and their results.

use stripe::{BeginRefusal, Call};

/// An event of a world.
#[derive(Clone, Copy)]
pub enum Event<'a> {
    /// A caller starts a call.
    Start { caller: u8, call: Call<'a> },
    /// The call that runs on a stripe executes one instruction.
    Step { stripe: usize },
    /// The call that runs on a stripe, which must be final, finishes and is recorded.
    Finish { stripe: usize },
}

/// The result of an event.
#[derive(Clone, Copy, Debug, PartialEq, Eq)]
pub enum Applied {
    Done,
    /// The event was not possible, and changed nothing.
    Ignored,
    /// The event was possible, but was refused because a history was full or memory was exhausted. It changed nothing.
    Refused(BeginRefusal),
}
