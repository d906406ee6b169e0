//! Tests: the mutable entry, the word buffer, the arrays and the library calls of an invocation.
#![tactic(auto)]

#[cfg(test)]
mod arrays;
#[cfg(test)]
mod entry;
#[cfg(test)]
mod library;
#[cfg(test)]
mod words;
