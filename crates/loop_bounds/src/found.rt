//! The points that the search has found, each with a number.

ghost use Rattle.std.specs.Prelude.{◌≡◌, ℕ, ◌+◌, ◌≤◌, ◌<◌, ◌⊎◌, ◌∷◌, [], true, min, length, Some, None, slice_get, IfOk, IsTrue, IsFalse};
ghost use Rattle.search.specs.declared.point.Point as plain;
ghost use Rattle.unrolled.specs.Limits.{node_limit, value_limit};
ghost use Rattle.search.specs.Orders.{AreBelow};
ghost use Rattle.search.specs.Points.{point_seen, number_in};
ghost use Rattle.loop_bounds.specs.Graphs.{AreLinked};
ghost use Rattle.loop_bounds.specs.Found.{points_seen, greatest_count, IsFound, Grows};

use search::{Point, add_number, number_of};
use std::alloc::{AllocError, Global};
use std::collections::BTreeMap;

/// The greatest number of nodes of a class with loops.
pub const NODE_LIMIT: usize = 65_536;
/// The greatest number of local variables and operands of all its nodes together.
pub const VALUE_LIMIT: usize = 4_194_304;

/// Points with their numbers, which are their indices.
#[derive(Drop)]
pub struct Found {
    pub points: Vec<Point>,
    pub numbers: BTreeMap<Point, usize>,
    /// The local variables and operands of all points. The count saturates.
    pub values: usize,
}

impl Found {
    /// Returns no points.
    pub fn new(alloc: Global) -> Found
        ensures found { IsFound result }
        ensures none { result.points.items ≡ [] }
        ensures numbers { (k : plain.Point) → number_in result.numbers k ≡ None }
    {
        Found {
            points: Vec::new(alloc),
            numbers: BTreeMap::new(alloc),
            values: 0,
        }
    }
}

/// Returns a count with the local variables and operands of one more point.
fn counted(values: usize, k: &Point) -> usize
    ensures { result ≡ min (values + (length k.now.node.locals.items + length k.now.node.operands.items)) greatest_count }
{
    values
        .saturating_add(k.node.locals.len())
        .saturating_add(k.node.operands.len())
}

/// Adds a point that has no number, and returns its number.
fn add(alloc: Global, found: &mut Found, k: Point) -> Result<usize, AllocError>
    requires found { IsFound found.old }
    requires new { number_in found.old.numbers k ≡ None }
    ensures found { IfOk result (λ _. IsFound found.new) }
    ensures grows { IfOk result (λ _. Grows found.old.points.items found.new.points.items (point_seen k ∷ [])) }
    ensures number { IfOk result (λ n. slice_get (points_seen found.new.points.items) n ≡ Some (point_seen k)) }
    ensures index { IfOk result (λ n. n ≡ length found.old.points.items) }
{
    let n = found.points.len();
    add_number(alloc, &mut found.numbers, &k, n)?;
    found.values = counted(found.values, &k);
    found.points.push(k)?;
    Ok(n)
}

/// Returns a point alone, with the number 0.
pub fn begin(alloc: Global, start: Point) -> Result<Found, AllocError>
    ensures found { IfOk result IsFound }
    ensures grows { IfOk result (λ found. Grows [] found.points.items (point_seen start ∷ [])) }
    ensures start { IfOk result (λ found. slice_get (points_seen found.points.items) 0 ≡ Some (point_seen start)) }
{
    let mut found = Found::new(alloc);
    add(alloc, &mut found, start)?;
    Ok(found)
}

/// Returns the number of a point, which is added if it is new.
pub fn note(alloc: Global, found: &mut Found, k: Point) -> Result<usize, AllocError>
    requires { IsFound found.old }
    ensures found { IfOk result (λ _. IsFound found.new) }
    ensures grows { IfOk result (λ _. Grows found.old.points.items found.new.points.items (point_seen k ∷ [])) }
    ensures number { IfOk result (λ n. slice_get (points_seen found.new.points.items) n ≡ Some (point_seen k)) }
{
    match number_of(&found.numbers, &k) {
        Some(n) => Ok(n),
        None => add(alloc, found, k),
    }
}

/// Returns the numbers of points. Those that are new are added.
pub fn note_all(alloc: Global, found: &mut Found, ks: Vec<Point>) -> Result<Vec<usize>, AllocError>
    requires { IsFound found.old }
    ensures found { IfOk result (λ _. IsFound found.new) }
    ensures grows { IfOk result (λ _. Grows found.old.points.items found.new.points.items (points_seen ks.items)) }
    ensures linked { IfOk result (λ l. AreLinked (points_seen found.new.points.items) l.items (points_seen ks.items)) }
    ensures below { IfOk result (λ l. AreBelow (length found.new.points.items) l.items) }
{
    let mut numbers = Vec::new(alloc);
    for k in ks {
        let n = note(alloc, found, k)?;
        numbers.push(n)?;
    }
    Ok(numbers)
}

/// Returns whether there are limits, and more points or values than them.
pub fn exceeds(found: &Found, limited: bool) -> bool
    ensures limited { IsTrue result → limited ≡ true }
    ensures more { IsTrue result → (node_limit < length found.now.points.items) ⊎ (value_limit < found.now.values) }
    ensures nodes { IsFalse result → limited ≡ true → length found.now.points.items ≤ node_limit }
    ensures values { IsFalse result → limited ≡ true → found.now.values ≤ value_limit }
{
    limited && (found.points.len() > NODE_LIMIT || found.values > VALUE_LIMIT)
}
