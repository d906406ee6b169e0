//! The embedded engine: accepted classes, the workspace that they run in, and the C interface.
#![tactic(auto)]

mod answers;
mod args;
mod engine;
mod numbers;

pub use answers::{define, invoke, write_text};
pub use args::args_of;
pub use engine::{Defined, Engine};
pub use numbers::{
    ArgNumbers, CallNumbers, DoneNumbers, NO_CLASS, VerdictNumbers, not_run, refused,
};
