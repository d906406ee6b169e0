//! Legal histories as runs of a world. The crate has definitions and their laws, and no code that runs.
#![tactic(auto)]

mod laws;

pub use laws::{
    closed_caches_are_runs, crossed_histories_have_no_run, legal_histories_are_runs,
    runs_are_legal_histories,
};
