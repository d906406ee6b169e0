//! Worked examples of the definitions. A check computes each example in specs/, whether a law names it or not.
#![tactic(auto)]

mod laws;

pub use laws::{
    first_profile_accepts, first_profile_refuses, first_profile_refuses_a_chain, one_meaning,
    ordered_ends, references_fit, runs_mean, small_classes_are_judged, two_instructions,
};
