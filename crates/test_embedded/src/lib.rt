//! Tests: the results that the library returns to the program that embeds it.
#![tactic(auto)]

#[cfg(test)]
mod calls;
#[cfg(test)]
mod classes;
#[cfg(test)]
mod texts;
