//! Tests: malformed classes, truncated streams, readers, writers and allocations that fail, and many threads.
#![tactic(auto)]

#[cfg(test)]
mod classes;
#[cfg(test)]
mod gates;
#[cfg(test)]
mod memory;
#[cfg(test)]
mod streams;
