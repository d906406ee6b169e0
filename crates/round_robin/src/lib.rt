//! A round of calls on one thread by a round-robin scheduler: calls on different stripes run interleaved, one instruction at a time.
#![tactic(auto)]

mod run;
mod scheduler;

pub use run::{TurnsLeft, run_in_turns};
