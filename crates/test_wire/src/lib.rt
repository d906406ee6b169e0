//! Tests: the frames of the protocol, byte by byte.
#![tactic(auto)]

#[cfg(test)]
mod faults;
#[cfg(test)]
mod replies;
#[cfg(test)]
mod requests;
