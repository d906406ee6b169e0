//! The arrays of one invocation.
#![tactic(auto)]

mod arena;
mod header;

pub use arena::{Arena, WordsFull};
