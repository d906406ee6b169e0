//! The settings of a server.

use wire::Protocol;

/// The number of workers of a round, and the number of stripes of entries. Without workers the calls of a round run one after another.
///
/// A round has one worker for each `share` instructions of its estimated cost, at least one and at most `workers`.
#[derive(Clone, Copy, PartialEq, Eq)]
pub struct Settings {
    /// 0 to 16.
    pub workers: usize,
    /// 1 to 64.
    pub stripes: usize,
    /// With 0 each round has all workers.
    pub share: u32,
    pub protocol: Protocol,
}
