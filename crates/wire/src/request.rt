//! Requests.

use jtypes::Items;

/// An invocation, on one key, of the class with this number. Its arguments are in a separate buffer.
#[derive(Clone, Copy)]
pub struct Invocation {
    pub class: u32,
    pub key: i64,
}

/// A request of a client. The arguments of an invocation are in a separate buffer.
#[derive(Drop)]
pub enum Request {
    /// The bytes of a class file, not yet checked.
    Define(Items<u8>),
    Put { key: i64, value: i64 },
    Get { key: i64 },
    Remove { key: i64 },
    Contains { key: i64 },
    /// Invokes the class with this number on one key.
    Invoke { class: u32, key: i64 },
    /// Invokes the class with this number on each of the keys, which may have duplicates.
    InvokeAll { class: u32, keys: Items<i64> },
    /// Ends a round: the requests since the previous `RoundEnd`.
    RoundEnd,
    /// Asks for the number of the protocol. Of protocol 2, as are the kinds after it.
    Version,
    /// Forgets the class with this number. The number is not given to another class.
    Forget { class: u32 },
}
