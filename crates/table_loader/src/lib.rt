//! A loader that returns values from a table of keys and values, and the file format of the table.
#![tactic(auto)]

mod file;
mod table;

pub use table::{Pair, Table};
