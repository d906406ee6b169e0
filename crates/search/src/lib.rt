//! The parts of a search of a class with loops: its nodes as data, their successors as code, and an order of numbers that lead to numbers.
//! The search itself isn't here, and no other crate uses this one yet.
#![tactic(auto)]

mod arithmetic;
mod arrivals;
mod branches;
mod comparisons;
mod edges;
mod effects;
mod jumps;
mod known;
mod node;
mod operands;
mod order;
mod point;
mod rules;
mod stack_forms;
mod starts;
mod switches;
mod values;

pub use arithmetic::{of_one, of_two, of_unknown};
pub use arrivals::{arrive, arrive_all, successors};
pub use branches::{decided, drop_tested};
pub use comparisons::compared;
pub use edges::{next_nodes, step};
pub use effects::{
    call, create_array, forget_top, increment, measure, number_at, result_known, store, takes_two,
};
pub use jumps::{add, add_target, branch, goto};
pub use known::{Known, Length};
pub use node::{Following, Node, local, set_local};
pub use operands::{drop_top, peek, pop, pop_known, push, replace};
pub use order::ordered;
pub use point::{Point, add_number, number_of};
pub use rules::{followings, has_loops, tested};
pub use stack_forms::rearrange;
pub use starts::entered;
pub use switches::{chosen, switch};
pub use values::{
    forgotten, incremented, is_wide, kept, known_pushed, length_known, loaded, new_array,
    unknown_of,
};

#[cfg(test)]
mod tests;
