//! The edges of branches.

ghost use Rattle.std.specs.Prelude.{◌≡◌, [], ◌∷◌, ◌++◌, map, IfOk};
ghost use Rattle.unrolled.specs.Graph as graph;
ghost use Rattle.search.specs.Seen.{operands_seen, node_seen};
ghost use Rattle.search.specs.After.{IsPlace};

use crate::branches::{decided, drop_tested};
use crate::node::Node;
use jtypes::Test;
use std::alloc::{AllocError, Global};

/// Appends a node at a pc with what is known at `x`.
#[tactic(auto, using(crate::proofs::NodeLists::one_more))]
pub fn add(
    alloc: Global,
    mut to: Vec<Node>,
    x: &Node,
    place: usize,
) -> Result<Vec<Node>, AllocError>
    ensures { IfOk result (λ ys. map node_seen ys.items ≡ map node_seen to.items ++ graph.at (node_seen x.now) place (operands_seen x.now.operands.items) ∷ []) }
{
    let y = x.at(alloc, place)?;
    to.push(y)?;
    Ok(to)
}

/// Appends a node at a branch target with what is known at `x`; none if the target is negative.
pub fn add_target(
    alloc: Global,
    to: Vec<Node>,
    x: &Node,
    target: i128,
) -> Result<Vec<Node>, AllocError>
    requires { IsPlace target }
    ensures { IfOk result (λ ys. map node_seen ys.items ≡ map node_seen to.items ++ graph.to_target (node_seen x.now) target (operands_seen x.now.operands.items)) }
{
    match usize::try_from(target) {
        Ok(place) => add(alloc, to, x, place),
        Err(_) => Ok(to),
    }
}

/// Returns the nodes after `goto`.
pub fn goto(alloc: Global, x: &Node, target: i128) -> Result<Vec<Node>, AllocError>
    requires { IsPlace target }
    ensures { IfOk result (λ ys. map node_seen ys.items ≡ graph.to_target (node_seen x.now) target (operands_seen x.now.operands.items)) }
{
    add_target(alloc, Vec::new(alloc), x, target)
}

/// Returns the nodes after a branch whose test has this answer, if it is decided. `x` lacks the operands of the test.
fn by_answer(
    alloc: Global,
    x: &Node,
    next: usize,
    target: i128,
    answer: Option<bool>,
) -> Result<Vec<Node>, AllocError>
    requires { IsPlace target }
    ensures { IfOk result (λ ys. map node_seen ys.items ≡ graph.by_answer (node_seen x.now) next target (operands_seen x.now.operands.items) answer) }
{
    match answer {
        Some(true) => goto(alloc, x, target),
        Some(false) => add(alloc, Vec::new(alloc), x, next),
        None => {
            let fall = add(alloc, Vec::new(alloc), x, next)?;
            add_target(alloc, fall, x, target)
        }
    }
}

/// Returns the nodes after a branch: one if what is known decides its test, else two.
pub fn branch(
    alloc: Global,
    x: &Node,
    next: usize,
    test: Test,
    target: i128,
) -> Result<Vec<Node>, AllocError>
    requires { IsPlace target }
    ensures { IfOk result (λ ys. map node_seen ys.items ≡ graph.by_answer (node_seen x.now) next target (graph.tested_rest test (operands_seen x.now.operands.items)) (graph.decided test (operands_seen x.now.operands.items))) }
{
    let answer = decided(test, &x.operands);
    let mut y = x.copy(alloc)?;
    drop_tested(test, &mut y.operands);
    by_answer(alloc, &y, next, target, answer)
}
