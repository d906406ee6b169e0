//! A buffer of words with a fixed capacity, allocated once.
#![tactic(auto)]

mod block;
mod words;

pub use words::RawWords;
