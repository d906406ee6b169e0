//! One stripe of a cache: its entries, the call that is open on it, and the history of its calls.
#![tactic(auto)]

mod args;
mod call;
mod key;
mod refusal;
mod rest;
mod stripe;
mod table;
mod tables;

pub use args::ArgSlice;
pub use call::{Call, OpenCall, Record, Reply, ask};
pub use key::stripe_of;
pub use refusal::{BeginRefusal, OpenRefusal};
pub use rest::Rest;
pub use stripe::Stripe;
pub use tables::{MOST_RECORDS, Tables};
