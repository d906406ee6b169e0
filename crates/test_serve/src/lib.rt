//! Tests: rounds on one thread, and request streams byte by byte. And a theorem on a small stream.
#![tactic(auto)]

mod laws;
#[cfg(test)]
mod requests;
#[cfg(test)]
mod turned;

pub use laws::{one_stream_has_one_answer, versions_have_one_answer};
