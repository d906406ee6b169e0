//! A round of calls by worker threads, on a cache that is opened for the round and closed after it.
#![tactic(auto)]

mod buffers;
mod cost_model;
mod pool_run;
mod single;

pub use buffers::WorkspacePool;
pub use cost_model::{CALL_COST, STEPS_PER_WORKER, cost_of, workers_for};
pub use pool_run::{PoolRound, RoundLeft, run_by_workers};
