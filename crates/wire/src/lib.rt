//! The wire protocol: reads request frames and writes reply frames.
#![tactic(auto)]

mod ahead;
mod counted;
mod definitions;
mod fault;
mod laws;
mod parsing;
mod protocol;
mod reading;
mod reply;
mod reply_texts;
mod request;
mod text;
mod writing;

pub use ahead::{Ahead, Plain};
pub use counted::Counted;
pub use definitions::all_definitions;
pub use fault::WireFault;
pub use laws::one_front;
pub use protocol::Protocol;
pub use reading::{invocation_at_hand, read_request};
pub use reply::{Denial, JobOutcome, Reply};
pub use request::{Invocation, Request};
pub use writing::{WriteFailed, add_result, write_bytes, write_reply};
