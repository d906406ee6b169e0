//! Tests: events in worlds, classes defined by threads, calls on caches, and job numbers that workers claim.
#![tactic(auto)]

#[cfg(test)]
mod claimed;
#[cfg(test)]
mod defined;
#[cfg(test)]
mod seats;
#[cfg(test)]
mod threads;
#[cfg(test)]
mod worlds;
