//! Type soundness with bounds of classes with loops, over the nodes of `unrolled`.
#![tactic(auto)]

mod laws;

pub use laws::{
    accepted_with_loops, loop_is_accepted, loop_is_safe, runs_stay_within, sound_with_loops,
    starts_and_counts, third_profile_is_kept,
};
