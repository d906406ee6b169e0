//! Bounds of classes with loops: paths over nodes, a node being a pc with what is known of the local variables and operands.
#![tactic(auto)]

mod laws;

pub use laws::{
    bounds_are_same, certificates_cover, forward_is_covered, tables_are_bounds, unrolled_has_bounds,
};
