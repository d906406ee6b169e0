//! The end of an invocation, and the result of one step.
#![tactic(auto)]

mod done;

pub use done::{Done, Going};
