//! The edges of switches.

ghost use Rattle.std.specs.Prelude.{◌≡◌, ◌≤ℤ◌, ◌++◌, ◌∷◌, map, IfOk, All, get_or, int_lt, if◌then◌else◌};
ghost use Rattle.std.specs.Int.{int_gap};
ghost use Rattle.decode.specs.Places.{chosen, among, targets_in};
ghost use Rattle.unrolled.specs.Graph as graph;
ghost use Rattle.search.specs.Seen.{operands_seen, node_seen};
ghost use Rattle.search.specs.After.{IsPlace};

use crate::effects::number_at;
use crate::jumps::{add_target, goto};
use crate::node::Node;
use crate::operands::drop_top;
use decode::{Case, Cases};
use std::alloc::{AllocError, Global};

/// Returns the target of the case with a key, or the default.
fn among(default: i128, cases: &[Case], key: i32) -> i128
    ensures { result ≡ among default cases.now key }
{
    for c in cases {
        if c.key == key {
            return c.target;
        }
    }
    default
}

/// Returns how far a key is above the lowest one.
fn gap(low: i32, key: i32) -> usize
    requires { low ≤ℤ key }
    ensures { result ≡ int_gap low key }
{
    (i64::from(key) - i64::from(low)) as usize
}

/// Returns the target at an index, or the default past the end.
fn at_or(default: i128, targets: &[i128], i: usize) -> i128
    ensures { result ≡ get_or targets.now i default }
{
    targets.get(i).copied().unwrap_or(default)
}

/// Returns the target of the consecutive keys from `low` on, or the default.
fn in_table(default: i128, low: i32, targets: &[i128], key: i32) -> i128
    ensures { result ≡ (if int_lt key low then default else get_or targets.now (int_gap low key) default) }
{
    if key < low {
        return default;
    }
    at_or(default, targets, gap(low, key))
}

/// Returns the branch target of a switch for a key.
pub fn chosen(default: i128, cases: &Cases, key: i32) -> i128
    ensures { result ≡ chosen default cases.now key }
{
    match cases {
        Cases::Table(low, targets) => in_table(default, *low, targets.as_slice(), key),
        Cases::Lookup(cases) => among(default, cases.as_slice(), key),
    }
}

/// Appends nodes at the branch targets of a switch with what is known at `x`.
fn add_targets(
    alloc: Global,
    mut to: Vec<Node>,
    x: &Node,
    cases: &Cases,
) -> Result<Vec<Node>, AllocError>
    requires { All IsPlace (targets_in cases.now) }
    ensures { IfOk result (λ ys. map node_seen ys.items ≡ map node_seen to.items ++ graph.to_targets (node_seen x.now) (targets_in cases.now) (operands_seen x.now.operands.items)) }
{
    for i in 0..cases.count() {
        to = add_target(alloc, to, x, cases.target(i))?;
    }
    Ok(to)
}

/// Returns the nodes at all branch targets of a switch with what is known at `x`, that of the default first.
fn all_targets(
    alloc: Global,
    x: &Node,
    default: i128,
    cases: &Cases,
) -> Result<Vec<Node>, AllocError>
    requires default { IsPlace default }
    requires cases { All IsPlace (targets_in cases.now) }
    ensures { IfOk result (λ ys. map node_seen ys.items ≡ graph.to_targets (node_seen x.now) (default ∷ targets_in cases.now) (operands_seen x.now.operands.items)) }
{
    let to = goto(alloc, x, default)?;
    add_targets(alloc, to, x, cases)
}

/// Returns the nodes after a switch: one if its key is known, else one for each target.
#[tactic(auto, using(crate::proofs::Targets::chosen_is_place))]
pub fn switch(
    alloc: Global,
    x: &Node,
    default: i128,
    cases: &Cases,
) -> Result<Vec<Node>, AllocError>
    requires default { IsPlace default }
    requires cases { All IsPlace (targets_in cases.now) }
    ensures { IfOk result (λ ys. map node_seen ys.items ≡ graph.by_key (node_seen x.now) default cases.now (operands_seen x.now.operands.items)) }
{
    let key = number_at(&x.operands, 0);
    let mut y = x.copy(alloc)?;
    drop_top(&mut y.operands, 1);
    match key {
        Some(n) => goto(alloc, &y, chosen(default, cases, n)),
        None => all_targets(alloc, &y, default, cases),
    }
}
