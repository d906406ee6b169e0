//! The sharded cache that threads share: the stripes with their locks, the seats of callers with their receipts, and the calls.
#![tactic(auto)]

mod cache;
mod calls;
mod ends;
mod gate;
mod known;
mod locks;
mod receipt;
mod refusal;
mod seat;
mod steps;

pub use cache::{Cache, Closed};
pub use gate::{Gate, NoGate};
pub use receipt::Receipt;
pub use refusal::InvokeRefusal;
pub use seat::Seat;
