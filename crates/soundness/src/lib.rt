//! Type soundness with bounds: a checked class never gets stuck, and stays within bounds that none of its paths exceeds.
#![tactic(auto)]

mod laws;

pub use laws::{
    accepted_has_bounds, accepted_is_checked, accepted_is_ordered, example_is_accepted,
    example_is_checked, one_class, one_table, other_premises_are_needed, premises_are_needed,
    profiles_are_kept, ranks_or_recursion, room_is_not_needed, signatures_have_no_top,
    some_are_never_safe, starts_and_counts, type_soundness,
};
