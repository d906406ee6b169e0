//! Class files for tests: a common constant pool, a constructor, and the methods that each test needs.
#![tactic(auto)]

mod classes;
mod families;
mod layout;
mod pool;
mod rows;

pub use classes::{
    PLUS, counter, falls, give_entry, give_entry_with_stack, mixed, plus, shift64, unbox,
};
pub use families::{diamond, line_of};
pub use layout::{CONSTRUCTOR, Frames, Method, bytes_of, class_of, process};
pub use pool::Constant;
pub use rows::class_named;
