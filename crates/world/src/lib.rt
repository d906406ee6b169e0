//! A single-threaded world of calls on a cache.
//! Calls of any callers start, take single steps and finish in any order, with at most one running call per stripe.
#![tactic(auto)]

mod event;
mod room;
mod seat;
mod world;

pub use event::{Applied, Event};
pub use world::World;
