//! Tests: constant pools, class files and code read from bytes, the verifier's local variables, and the sizes of the test classes.
#![tactic(auto)]

#[cfg(test)]
mod codes;
#[cfg(test)]
mod constants;
#[cfg(test)]
mod layouts;
#[cfg(test)]
mod pages;
#[cfg(test)]
mod sizes;
