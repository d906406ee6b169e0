//! The claim counter of a round: each of the numbers 0, 1, 2 .. is claimed by at most one worker.
//! A job is here anything with a number. In a round it is a group of jobs.
#![tactic(auto)]

mod claimer;
mod counter;
mod ends;
mod known;
mod rule;

pub use claimer::Claimer;
pub use counter::{Counter, open};
