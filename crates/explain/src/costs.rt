//! The costs of methods.

ghost use Rattle.std.specs.Prelude.{◌≡◌, length, IfOk};
ghost use Rattle.bounds.specs.Cells.{known_at};
ghost use Rattle.bounds.specs.Rows.{AreAllKnown};
ghost use Rattle.explain.specs.Listed.{AreListed};

use bounds::Cost;
use std::alloc::{AllocError, Global};
use typecheck::Typed;

/// The maximum cost of the paths of a method, each measure capped at 32 bits.
#[derive(Clone, Copy, PartialEq, Eq)]
pub struct MethodCost {
    /// The number of the method in its class, from 0.
    pub number: usize,
    pub cost: Cost,
}

/// Returns the cost of the method with this number if it is known.
fn known_at(known: &[Option<Cost>], number: usize) -> Option<Cost>
    ensures { result ≡ known_at known.now number }
{
    match known.get(number) {
        Some(cost) => *cost,
        None => None,
    }
}

/// Returns the costs of these methods, in their order, from the costs by number.
pub fn listed(
    alloc: Global,
    methods: &[Typed],
    known: &[Option<Cost>],
) -> Result<Vec<MethodCost>, AllocError>
    requires { AreAllKnown methods.now known.now }
    ensures { IfOk result (λ costs. AreListed methods.now known.now (length methods.now) costs.items) }
{
    let mut costs = Vec::new(alloc);
    for method in methods {
        let number = method.number;
        match known_at(known, number) {
            Some(cost) => costs.push(MethodCost { number, cost })?,
            None => unreachable!(),
        }
    }
    Ok(costs)
}
