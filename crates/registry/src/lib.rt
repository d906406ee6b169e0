//! A registry of verified classes, shared by threads.
#![tactic(auto)]

mod registry;

pub use registry::{ClassId, Registry};
