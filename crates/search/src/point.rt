//! Points of a class, and their numbers.

ghost use Rattle.std.specs.Prelude.{◌≡◌, ◌++◌, ◌∷◌, [], List, length, IfOk};
ghost use Rattle.search.specs.declared.point.Point as plain;
ghost use Rattle.search.specs.Points.{point_seen, number_in, AreNumbers};

use crate::node::Node;
use std::alloc::{AllocError, Global};
use std::collections::BTreeMap;

/// A node with the index of its method.
#[derive(Drop, PartialEq, Eq, PartialOrd, Ord)]
pub struct Point {
    pub method: usize,
    pub node: Node,
}

impl Point {
    /// Returns a copy.
    fn copy(&self, alloc: Global) -> Result<Point, AllocError>
        ensures { IfOk result (λ k. point_seen k ≡ point_seen self.now) }
    {
        Ok(Point {
            method: self.method,
            node: self.node.copy(alloc)?,
        })
    }
}

/// Returns the number of a point, if it has one.
pub fn number_of(numbers: &BTreeMap<Point, usize>, k: &Point) -> Option<usize>
    ensures { result ≡ number_in numbers.now k.now }
{
    match numbers.get(k) {
        Some(n) => Some(*n),
        None => None,
    }
}

/// Gives a number to a point. The only error is that of memory.
pub fn add_number(
    alloc: Global,
    numbers: &mut BTreeMap<Point, usize>,
    k: &Point,
    number: usize,
) -> Result<(), AllocError>
    ensures { IfOk result (λ _. (points : List plain.Point) → length points ≡ number → AreNumbers numbers.old points → AreNumbers numbers.new (points ++ k.now ∷ [])) }
{
    let key = k.copy(alloc)?;
    numbers.insert(key, number)?;
    Ok(())
}
