//! Calls on one key through the C interface as a legal history of a cache. The crate has definitions and their laws, and no code that runs.
#![tactic(auto)]

mod laws;

pub use laws::{
    answers_are_determined, calls_that_are_not_run, conversations_are_legal_histories,
    ends_are_answers, numbers_are_exact, three_calls,
};
