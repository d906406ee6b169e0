//! The points after a point.

ghost use Rattle.std.specs.Prelude.{◌≡◌, ℕ, ◌<◌, ◌++◌, ◌∷◌, [], ◌==◌, ◌&&◌, not, List, map, take, length, Some, slice_get, IfOk, MatchOption, option_copied};
ghost use Rattle.decode.specs.declared.instruction.Placed.{Placed};
ghost use Rattle.decode.specs.Places.{at_place, is_return};
ghost use Rattle.typecheck.specs.Typing.{Class, Method, own_of, call_of};
ghost use Rattle.typecheck.specs.Calls.{called_by};
ghost use Rattle.typecheck.specs.declared.typed.Typed.{Typed};
ghost use Rattle.unrolled.specs.Known as spec;
ghost use Rattle.unrolled.specs.Graph as graph;
ghost use Rattle.unrolled.specs.Rules.{rules_of};
ghost use Rattle.search.specs.Seen.{operands_seen, node_seen};
ghost use Rattle.search.specs.Points.{point_seen};
ghost use Rattle.search.specs.After.{HasPlaces};
ghost use Rattle.search.specs.Followed.{AreFollowings};
ghost use Rattle.loop_bounds.specs.Methods.{AreMethodsOf, HasNumber, HasNumberIf, LacksNumber, HavePlaces};
ghost use Rattle.loop_bounds.specs.Nexts.{AreNexts, IsDeadEnd, at_node, own_start};
ghost use Rattle.loop_bounds.specs.Found.{points_seen, EachHasMethod};

use crate::methods::row_of;
use decode::Placed;
use frames::{Callee, Reached};
use search::{Following, Known, Node, Point, entered, successors};
use std::alloc::{AllocError, Global};
use typecheck::Typed;

/// Returns the operands from the top down to a number of them, or all if there are fewer.
fn top(operands: &[Known], count: usize) -> &[Known]
    ensures { operands_seen result.now ≡ take count (operands_seen operands.now) }
{
    let left = operands.len().saturating_sub(count);
    &operands[left..]
}

/// Returns the start of the typed method at `i`, by what is known of its arguments, the first one first.
pub fn start_at(
    alloc: Global,
    methods: &[Typed],
    fs: &[Following],
    i: usize,
    arguments: &[Known],
) -> Result<Point, AllocError>
    requires size { length fs.now ≡ length methods.now }
    requires within { i < length methods.now }
    ensures start { (c : Class) (row : Typed) (m : Method) → AreMethodsOf c methods.now → AreFollowings methods.now fs.now → slice_get methods.now i ≡ Some row → slice_get c.methods row.number ≡ Some m → IfOk result (λ k. point_seen k ≡ at_node row.number (graph.entered (rules_of c row.number) m (operands_seen arguments.now))) }
    ensures method { IfOk result (λ k. HasNumber methods.now k.method) }
{
    let node = entered(alloc, &fs[i], methods[i].environment.max_locals, arguments)?;
    Ok(Point {
        method: methods[i].number,
        node,
    })
}

/// Returns the index of the own method that is called, if any.
fn own_callee(callee: Option<&Callee>) -> Option<usize>
    ensures { result ≡ own_of (option_copied callee.entry) }
{
    match callee {
        Some(callee) => match callee.reached {
            Reached::Own(k) => Some(k),
            Reached::Library(_) => None,
        },
        None => None,
    }
}

/// Appends the nodes of a method.
fn add_nodes(mut to: Vec<Point>, method: usize, nodes: Vec<Node>) -> Result<Vec<Point>, AllocError>
    ensures { IfOk result (λ ys. points_seen ys.items ≡ points_seen to.items ++ map (at_node method) (map node_seen nodes.items)) }
{
    for node in nodes {
        to.push(Point { method, node })?;
    }
    Ok(to)
}

/// Returns the number of operands that a call takes; 0 for other instructions.
fn argument_count(callee: Option<&Callee>) -> usize
    ensures { (ks : List spec.Known) → take result ks ≡ graph.taken (option_copied callee.entry) ks }
{
    match callee {
        Some(callee) => callee.params.as_slice().len(),
        None => 0,
    }
}

/// Returns a list of the start of a method by its index, or `None` if it isn't among the typed methods.
fn start_alone(
    alloc: Global,
    methods: &[Typed],
    fs: &[Following],
    number: usize,
    arguments: &[Known],
) -> Result<Option<Vec<Point>>, AllocError>
    requires { length fs.now ≡ length methods.now }
    ensures start { (c : Class) (m : Method) → AreMethodsOf c methods.now → AreFollowings methods.now fs.now → slice_get c.methods number ≡ Some m → IfOk result (λ o. MatchOption o (Unit {0}) (λ to. points_seen to.items ≡ at_node number (graph.entered (rules_of c number) m (operands_seen arguments.now)) ∷ [])) }
    ensures none { IfOk result (λ o. MatchOption o (HasNumber methods.now number → ⊥) (λ to. HasNumber methods.now number)) }
    ensures methods { IfOk result (λ o. MatchOption o (Unit {0}) (λ to. EachHasMethod methods.now (points_seen to.items))) }
{
    let Some(i) = row_of(methods, number) else {
        return Ok(None);
    };
    let start = start_at(alloc, methods, fs, i, arguments)?;
    let mut to = Vec::new(alloc);
    to.push(start)?;
    Ok(Some(to))
}

/// Returns a list of the start of the own method that is called, if any, or `None` if the method isn't among the typed ones.
fn callee_start(
    alloc: Global,
    methods: &[Typed],
    fs: &[Following],
    x: &Node,
    callee: Option<&Callee>,
) -> Result<Option<Vec<Point>>, AllocError>
    requires { length fs.now ≡ length methods.now }
    ensures start { (c : Class) (p : Placed) → AreMethodsOf c methods.now → AreFollowings methods.now fs.now → option_copied callee.entry ≡ called_by c.view p.instruction → IfOk result (λ o. MatchOption o (Unit {0}) (λ to. points_seen to.items ≡ own_start c (rules_of c) p (node_seen x.now) (call_of c.view p.instruction))) }
    ensures none { IfOk result (λ o. MatchOption o (LacksNumber methods.now (own_of (option_copied callee.entry))) (λ to. HasNumberIf methods.now (own_of (option_copied callee.entry)))) }
    ensures methods { IfOk result (λ o. MatchOption o (Unit {0}) (λ to. EachHasMethod methods.now (points_seen to.items))) }
{
    match own_callee(callee) {
        None => Ok(Some(Vec::new(alloc))),
        Some(k) => {
            let arguments = top(&x.operands, argument_count(callee));
            start_alone(alloc, methods, fs, k, arguments)
        }
    }
}

/// Returns whether an instruction isn't a return and has no successor.
fn is_end(p: &Placed, count: usize) -> bool
    ensures { result ≡ (not (is_return p.now.instruction) && (count == 0)) }
{
    !p.instruction.is_return() && count == 0
}

/// Returns the points after a node of a typed method, or `None` if there is none and the instruction is no return.
fn nexts_of(
    alloc: Global,
    methods: &[Typed],
    fs: &[Following],
    i: usize,
    p: &Placed,
    x: &Node,
) -> Result<Option<Vec<Point>>, AllocError>
    requires size { length fs.now ≡ length methods.now }
    requires within { i < length methods.now }
    requires places { HasPlaces p.now.instruction }
    ensures answer { (c : Class) (row : Typed) → AreMethodsOf c methods.now → AreFollowings methods.now fs.now → slice_get methods.now i ≡ Some row → at_place row.code x.now.place ≡ Some p.now → IfOk result (λ o. MatchOption o (IsDeadEnd c (rules_of c) (at_node row.number (node_seen x.now))) (λ ys. AreNexts c (rules_of c) (at_node row.number (node_seen x.now)) (points_seen ys.items))) }
    ensures methods { IfOk result (λ o. MatchOption o (Unit {0}) (λ ys. EachHasMethod methods.now (points_seen ys.items))) }
{
    let callee = methods[i].callee(x.place);
    let ys = successors(alloc, x, &fs[i], p, callee)?;
    if is_end(p, ys.len()) {
        return Ok(None);
    }
    match callee_start(alloc, methods, fs, x, callee)? {
        None => Ok(None),
        Some(to) => {
            let all = add_nodes(to, methods[i].number, ys)?;
            Ok(Some(all))
        }
    }
}

/// Returns the points after a point, that at the start of an own method that it calls first. The result is `None` if the point has no
/// instruction, or one that is no return and has no successor. The only error is that of memory.
pub fn nexts(
    alloc: Global,
    methods: &[Typed],
    fs: &[Following],
    k: &Point,
) -> Result<Option<Vec<Point>>, AllocError>
    requires size { length fs.now ≡ length methods.now }
    requires places { HavePlaces methods.now }
    ensures answer { (c : Class) → AreMethodsOf c methods.now → AreFollowings methods.now fs.now → HasNumber methods.now k.now.method → IfOk result (λ o. MatchOption o (IsDeadEnd c (rules_of c) (point_seen k.now)) (λ ys. AreNexts c (rules_of c) (point_seen k.now) (points_seen ys.items))) }
    ensures methods { IfOk result (λ o. MatchOption o (Unit {0}) (λ ys. EachHasMethod methods.now (points_seen ys.items))) }
{
    let Some(i) = row_of(methods, k.method) else {
        return Ok(None);
    };
    match methods[i].code.at(k.node.place) {
        None => Ok(None),
        Some(p) => nexts_of(alloc, methods, fs, i, p, &k.node),
    }
}
