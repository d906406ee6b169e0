//! Tests: calls on a stripe, and tables as loaders.
#![tactic(auto)]

#[cfg(test)]
mod loaders;
#[cfg(test)]
mod stripes;
