//! The verdict on the bytes of a class: accepted with bounds, or a refusal.
#![tactic(auto)]

mod instructions;
mod shape;
mod shape_spot;
mod spot;
mod typed_class;
mod verdict;

pub use bounds::Bounds;
pub use spot::{Located, Spot};
pub use typed_class::{TypedClass, type_class};
pub use verdict::{JudgedClass, judge};
