//! Rounds: batches of jobs that several workers run. `invokeAll` is a round.
#![tactic(auto)]

mod all;
mod buffers;
mod groups;
mod job;
mod round;
mod round_task;
mod single;
mod threads;
mod worker;

pub use all::invoke_all;
pub use buffers::{RoundBuffers, buffers_for};
pub use job::{Job, JobReply, calls_for};
pub use round::{run_in, run_round};
pub use round_task::Round;
pub use single::run_alone;
