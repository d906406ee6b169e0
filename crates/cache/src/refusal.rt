//! The refusals of calls.

/// The reason why a call is refused. A refused call changes no entry, history or receipt. `JournalFull` sets the seat's flag of the stripe.
#[derive(Clone, Copy, PartialEq, Eq)]
pub enum InvokeRefusal {
    /// The history of the key's stripe has its maximum number of records.
    JournalFull,
    NoMemory,
}
