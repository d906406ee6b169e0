//! The machine that runs accepted classes.
#![tactic(auto)]

mod workspace;

pub use ended::{Done, Going};
pub use workspace::{Workspace, one_state_runs, run};
