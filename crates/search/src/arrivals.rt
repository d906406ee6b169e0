//! The successors of a node: the nodes after it with only what is followed.

ghost use Rattle.std.specs.Prelude.{◌≡◌, map, IfOk, option_copied};
ghost use Rattle.classfile.specs.View.{ClassView};
ghost use Rattle.transfer.specs.Transfer.{IsCalleeOf};
ghost use Rattle.unrolled.specs.Known as spec;
ghost use Rattle.unrolled.specs.Graph as graph;
ghost use Rattle.search.specs.Seen.{known_seen, node_seen, following_seen};
ghost use Rattle.search.specs.After.{HasPlaces};

use crate::edges::next_nodes;
use crate::known::Known;
use crate::node::{Following, Node};
use crate::values::forgotten;
use decode::Placed;
use frames::Callee;
use std::alloc::{AllocError, Global};

/// Forgets of each operand all but whether it is a long.
fn forget(operands: &mut [Known])
    ensures { map known_seen operands.new ≡ map spec.forgotten (map known_seen operands.old) }
{
    for i in 0..operands.len() {
        operands[i] = forgotten(operands[i]);
    }
}

/// Forgets what isn't followed.
pub fn arrive(x: &mut Node, f: &Following)
    ensures { node_seen x.new ≡ graph.arrive (following_seen f.now) (node_seen x.old) }
{
    if f.values {
        return;
    }
    x.locals.clear();
    forget(&mut x.operands);
}

/// Forgets in each node what isn't followed.
pub fn arrive_all(ys: &mut [Node], f: &Following)
    ensures { map node_seen ys.new ≡ map (graph.arrive (following_seen f.now)) (map node_seen ys.old) }
{
    for i in 0..ys.len() {
        let y = &mut ys[i];
        arrive(y, f);
    }
}

/// Returns the nodes after an instruction in the same method, with only what is followed. `callee` is the method that a call resolves to.
/// The only error is that of memory.
pub fn successors(
    alloc: Global,
    x: &Node,
    f: &Following,
    p: &Placed,
    callee: Option<&Callee>,
) -> Result<Vec<Node>, AllocError>
    requires { HasPlaces p.now.instruction }
    ensures { (v : ClassView) → IsCalleeOf v p.now.instruction (option_copied callee.entry) → IfOk result (λ ys. map node_seen ys.items ≡ graph.successors v (following_seen f.now) p.now (node_seen x.now)) }
{
    let mut ys = next_nodes(alloc, x, f, p, callee)?;
    arrive_all(&mut ys, f);
    Ok(ys)
}
