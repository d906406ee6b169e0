//! The types of a method's local variables, stored in pages.
#![tactic(auto)]

mod assignability;
mod compare;
mod locals;
mod pages;

pub use assignability::{assignable, ref_assignable};
pub use locals::Locals;
