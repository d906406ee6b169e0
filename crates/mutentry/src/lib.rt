//! The entry of an invocation, and the effect of the invocation on it.
#![tactic(auto)]

mod state;

pub use state::{EntryState, effect_leads_from_before_to_now};
