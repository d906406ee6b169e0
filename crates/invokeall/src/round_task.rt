//! The round, and the task that its workers share.

use crate::groups::Groups;
use cache::Cache;
use claims::Counter;
use jtypes::Loader;
use stripe::Call;

/// A round: its calls, and the cache that they are made on.
/// The gate observes each call.
#[derive(Drop)]
pub struct Round<'s, 'a, 'l, G, L: Loader> {
    pub cache: &'s Cache<'a, 'l, L>,
    pub calls: &'s [Call<'a>],
    pub gate: &'s G,
}

/// The task that all workers of a round share: the round, the groups of its calls, and the counter with which they claim groups.
#[derive(Drop)]
pub struct RoundTask<'s, 'a, 'l, R, G, L: Loader> {
    pub rt: &'s R,
    pub cache: &'s Cache<'a, 'l, L>,
    pub counter: &'s Counter,
    pub groups: &'s Groups,
    pub calls: &'s [Call<'a>],
    pub gate: &'s G,
}
