//! The outcome of a finished round of calls, for every scheduler: a legal history of the answered calls, from the entries before the round
//! to those after it. The crate has definitions and their laws, and no code that runs.
#![tactic(auto)]

mod laws;

pub use laws::{
    a_small_round_is_done, calls_are_filed, histories_follow_one_another,
    what_a_cache_hands_out_is_an_outcome, what_a_world_hands_out_is_an_outcome,
    who_answers_an_outcome_is_done,
};
