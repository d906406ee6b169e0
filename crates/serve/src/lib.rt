//! The server engine: reads requests round by round, runs each round at its end, and writes its replies.
#![tactic(auto)]

mod batch;
mod batch_requests;
mod classes;
mod context;
mod fault;
mod jobs;
mod keys;
mod laws;
mod reading;
mod replies;
mod round;
mod settings;
mod stream;

pub use fault::ServeFault;
pub use laws::{cut_streams_go_on, protocol_1_forgets_no_class};
pub use settings::Settings;
pub use stream::serve;
pub use workers::STEPS_PER_WORKER;
