//! Cycles of calls among the methods of a class.

ghost use Rattle.std.specs.Prelude.{◌≡◌, ◌<◌, length, IsTrue, IfOk, IfSome};
ghost use Rattle.typecheck.specs.Typing.{own_number};
ghost use Rattle.explain.specs.Circles.{IsCircleAmong, IsCallAmong, IsRowAmong, next_of};

use frames::Reached;
use std::alloc::{AllocError, Global};
use typecheck::Typed;

/// A call of one of the class's own methods: the number of the calling method, and the pc of the call.
#[derive(Clone, Copy, PartialEq, Eq)]
pub struct OwnCall {
    pub method: usize,
    pub place: usize,
}

/// Returns the number of the method that a call reaches if it is one of the class's own.
fn own_number(reached: Reached) -> Option<usize>
    ensures { result ≡ own_number reached }
{
    match reached {
        Reached::Own(k) => Some(k),
        Reached::Library(_) => None,
    }
}

/// Returns whether a method is left. After `left_of` the methods are left from which a cycle can be reached.
fn is_left(left: &[bool], number: usize) -> bool {
    match left.get(number) {
        Some(is) => *is,
        None => false,
    }
}

/// Returns the first call of a method that reaches a method that is left, and that method's number.
fn call_on(method: &Typed, left: &[bool]) -> Option<(OwnCall, usize)> {
    for called in &method.calls {
        if let Some(k) = own_number(called.callee.reached) {
            if is_left(left, k) {
                let call = OwnCall {
                    method: method.number,
                    place: called.place,
                };
                return Some((call, k));
            }
        }
    }
    None
}

/// Marks a method as left or not.
fn mark(left: &mut [bool], number: usize, is: bool) {
    if number < left.len() {
        left[number] = is;
    }
}

/// Marks each method that calls no method that is left as not left. Returns whether there was one.
fn take_away(methods: &[Typed], left: &mut [bool]) -> bool {
    let mut took = false;
    for method in methods {
        if is_left(left, method.number) && call_on(method, left).is_none() {
            mark(left, method.number, false);
            took = true;
        }
    }
    took
}

/// Returns, by number, whether a cycle of own calls can be reached from a method.
fn left_of(alloc: Global, methods: &[Typed]) -> Result<Vec<bool>, AllocError> {
    let mut count = 0usize;
    for method in methods {
        count = count.max(method.number.saturating_add(1));
    }
    let mut left = vec![in alloc; false; count]?;
    for method in methods {
        mark(&mut left, method.number, true);
    }
    for _ in 0..methods.len() {
        if !take_away(methods, &mut left) {
            break;
        }
    }
    Ok(left)
}

/// Returns the method with this number.
fn row_of(methods: &[Typed], number: usize) -> Option<&Typed>
    ensures { IfSome result (λ row. IsRowAmong methods.now row.now number) }
{
    for method in methods {
        if method.number == number {
            return Some(method);
        }
    }
    None
}

/// Returns the first method that is left.
fn first_left<'a>(methods: &'a [Typed], left: &[bool]) -> Option<&'a Typed> {
    for method in methods {
        if is_left(left, method.number) {
            return Some(method);
        }
    }
    None
}

/// Returns the index of the call that this method makes.
fn place_in(calls: &[OwnCall], method: usize) -> Option<usize>
    ensures { IfSome result (λ at. at < length calls.now) }
{
    for (at, call) in calls.iter().enumerate() {
        if call.method == method {
            return Some(at);
        }
    }
    None
}

/// Follows calls between methods that are left, until one reaches a method met before. Returns the calls from that method on.
fn walk(alloc: Global, methods: &[Typed], left: &[bool]) -> Result<Vec<OwnCall>, AllocError> {
    let mut path: Vec<OwnCall> = Vec::new(alloc);
    let mut here = first_left(methods, left);
    for _ in 0..methods.len() {
        let Some(method) = here else {
            break;
        };
        let Some((call, k)) = call_on(method, left) else {
            break;
        };
        path.push(call)?;
        if let Some(at) = place_in(&path, k) {
            return Vec::from_slice(alloc, &path.as_slice()[at..]);
        }
        here = row_of(methods, k);
    }
    Ok(path)
}

/// Returns the number of the own method that a call reaches.
fn reached_by(methods: &[Typed], call: OwnCall) -> Option<usize>
    ensures { IfSome result (IsCallAmong methods.now call.method call.place) }
{
    let row = row_of(methods, call.method)?;
    let callee = row.callee(call.place)?;
    own_number(callee.reached)
}

/// Returns whether a call reaches the method with this number.
fn reaches(methods: &[Typed], call: OwnCall, number: usize) -> bool
    ensures { IsTrue result → IsCallAmong methods.now call.method call.place number }
{
    match reached_by(methods, call) {
        Some(k) => k == number,
        None => false,
    }
}

/// Returns the index after `i`, which is 0 after the last of `count`.
fn next_of(count: usize, i: usize) -> usize
    requires { i < count }
    ensures next { result ≡ next_of count i }
    ensures below { result < count }
{
    if i + 1 < count { i + 1 } else { 0 }
}

/// Returns whether each of these calls reaches the method of the next one, and the last one that of the first.
fn is_circle(methods: &[Typed], calls: &[OwnCall]) -> bool
    ensures { IsTrue result → IsCircleAmong methods.now calls.now }
{
    for i in 0..calls.len() {
        let next = calls[next_of(calls.len(), i)];
        if !reaches(methods, calls[i], next.method) {
            return false;
        }
    }
    !calls.is_empty()
}

/// Returns own calls of these methods that form a cycle, or none if it finds none.
pub fn circle_of(alloc: Global, methods: &[Typed]) -> Result<Option<Vec<OwnCall>>, AllocError>
    ensures { IfOk result (λ found. IfSome found (λ calls. IsCircleAmong methods.now calls.items)) }
{
    let left = left_of(alloc, methods)?;
    let calls = walk(alloc, methods, &left)?;
    if is_circle(methods, &calls) {
        Ok(Some(calls))
    } else {
        Ok(None)
    }
}
