//! Tests: rounds of jobs by one or several workers, rounds on a cache opened for each, and rounds with a loader.
#![tactic(auto)]

#[cfg(test)]
mod crews;
#[cfg(test)]
mod jobs;
#[cfg(test)]
mod loaded;
