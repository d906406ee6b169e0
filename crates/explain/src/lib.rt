//! Explains why and where a class is refused, or what the methods of a class cost.
#![tactic(auto)]

mod circle;
mod costs;
mod explained;

pub use circle::OwnCall;
pub use costs::MethodCost;
pub use explained::{Explained, explain};
