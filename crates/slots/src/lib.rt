//! The local variables and operand stacks of an invocation, in preallocated flat arrays.
#![tactic(auto)]

mod calls;
mod fixed_stack;
mod rearrange;
mod reference;
mod slots;
mod window;

pub use fixed_stack::Rows;
pub use reference::Reference;
pub use slots::{Caller, Slots};
pub use window::Window;
