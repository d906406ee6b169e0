//! Tests: verified classes, the slots of an invocation, and invocations whole and step by step.
#![tactic(auto)]

#[cfg(test)]
mod classes;
#[cfg(test)]
mod places;
