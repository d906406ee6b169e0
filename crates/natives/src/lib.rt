//! The library calls of the profile, and the type test of casts.
#![tactic(auto)]

mod boxes;
mod calls;
mod casts;
mod entry;
mod statics;

pub use calls::call;
pub use casts::passes;
