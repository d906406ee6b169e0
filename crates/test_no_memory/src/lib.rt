//! Tests: the state and the replies that calls, rounds and streams leave when an allocation is refused.
//! They accept a refusal for out of memory in each run, so they pass with ample memory too.
#![tactic(auto)]

#[cfg(test)]
mod rounds;
#[cfg(test)]
mod streams;
#[cfg(test)]
mod worlds;
