//! The bounds of a class whose branches may lead back: its nodes are listed, ordered and given costs.
#![tactic(auto)]

mod costs;
mod explore;
mod found;
mod listing;
mod methods;
mod nexts;
mod places;

pub use found::{NODE_LIMIT, VALUE_LIMIT};
pub use listing::{Answer, Listing, list_nodes};
pub use places::have_places;

#[cfg(test)]
mod tests;
