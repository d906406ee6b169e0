//! Explanations of verdicts as text, for the authors of entry processors.
#![tactic(auto)]

mod advice;
mod bytes;
mod constants;
mod frame;
mod instruction;
mod java;
mod lines;
mod locations;
mod mnemonics;
mod page;
mod switches;
mod table;
mod text;
mod writer;

pub use page::{refusal_of, report};
pub use text::{explanation, write_explanation};
